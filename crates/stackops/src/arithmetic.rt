//! Arithmetic and bits on two operands as numbers, negation and `!`. Add, which may join texts, is not here.
ghost use Rattle.machine.specs.State.{Bytes};
ghost use Rattle.machine.specs.Instruction.{arithmetic, Neg, Not};
ghost use Rattle.stacks.specs.View.{Ready};
ghost use Rattle.texts.specs.Lengths.{SameLengths};
ghost use Rattle.outcome.specs.Meets.{Meets};
ghost use Rattle.fetch.specs.Running.{Holding};
ghost use Rattle.stackops.specs.Numbers.{PairsNumbers};

use crate::operators::Arithmetic;
use number::JsNumber;
use outcome::{Stepped, pop_two, push_value, underflow};
use stacks::Depths;
use texts::Texts;
use value::Value;

pub fn pop_numbers(d: Depths, texts: &Texts, stacks: &[u64]) -> Option<(JsNumber, JsNumber, Depths)>
    requires { Ready d stacks.now }
    ensures { PairsNumbers (Holding texts.now) d stacks.now result }
{
    let (a, b, e) = pop_two(d, stacks)?;
    Some((
        convert::to_number(texts, a),
        convert::to_number(texts, b),
        e,
    ))
}

/// Sub, Mul, Div, Mod and the bits. At `Add` it would not be the machine's, which joins texts.
pub fn compute<O: Arithmetic>(d: Depths, texts: &Texts, stacks: &mut [u64]) -> Stepped
    requires { Ready d stacks.old }
    ensures { Meets (Holding texts.now) (arithmetic O.of) d stacks.old result stacks.new }
{
    let Some((a, b, e)) = pop_numbers(d, texts, stacks) else {
        return underflow(d);
    };
    push_value(e, stacks, Value::Number(O::apply(a, b).bits))
}

pub fn neg(d: Depths, texts: &Texts, stacks: &mut [u64]) -> Stepped
    requires { Ready d stacks.old }
    ensures { Meets (Holding texts.now) Neg d stacks.old result stacks.new }
{
    let Some((v, e)) = d.pop(stacks) else {
        return underflow(d);
    };
    let a = convert::to_number(texts, v);
    push_value(e, stacks, Value::Number((-a).bits))
}

// Only the lengths of the texts matter, here and where a truth is asked for.
pub fn not(d: Depths, texts: &Texts, stacks: &mut [u64]) -> Stepped
    requires { Ready d stacks.old }
    ensures bytes { Meets (Holding texts.now) Not d stacks.old result stacks.new }
    ensures lengths { (b : Bytes) → SameLengths b texts.now → Meets (Holding b) Not d stacks.old result stacks.new }
{
    let Some((v, e)) = d.pop(stacks) else {
        return underflow(d);
    };
    push_value(e, stacks, Value::Boolean(!convert::to_boolean(texts, v)))
}
