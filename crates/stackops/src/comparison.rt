//! Comparisons, and the two logical instructions, which pop both operands whatever the first one is.
ghost use Rattle.machine.specs.State.{Bytes};
ghost use Rattle.machine.specs.Instruction.{comparison, In};
ghost use Rattle.stacks.specs.View.{Ready};
ghost use Rattle.texts.specs.Lengths.{SameLengths};
ghost use Rattle.outcome.specs.Meets.{Meets, Any};
ghost use Rattle.fetch.specs.Running.{Holding};
ghost use Rattle.stackops.specs.Values.{Equals, Logical};

use crate::arithmetic::pop_numbers;
use crate::operators::Comparison;
use outcome::{Stepped, pop_two, push_value, underflow};
use stacks::Depths;
use texts::Texts;
use value::Value;

/// Eq and NotEq, or StrictEq and StrictNotEq: are the operands equal or not, as `WANTED` has it?
pub fn equality<const STRICT: bool, const WANTED: bool>(
    d: Depths,
    texts: &Texts,
    stacks: &mut [u64],
) -> Stepped
    requires { Ready d stacks.old }
    ensures { Meets (Holding texts.now) (Equals STRICT WANTED) d stacks.old result stacks.new }
{
    let Some((a, b, e)) = pop_two(d, stacks) else {
        return underflow(d);
    };
    let equal = if STRICT {
        convert::strict_eq(texts, a, b)
    } else {
        convert::abstract_eq(texts, a, b)
    };
    push_value(e, stacks, Value::Boolean(equal == WANTED))
}

/// Lt, Gt, LtEq and GtEq.
pub fn compare<O: Comparison>(d: Depths, texts: &Texts, stacks: &mut [u64]) -> Stepped
    requires { Ready d stacks.old }
    ensures { Meets (Holding texts.now) (comparison O.of) d stacks.old result stacks.new }
{
    let Some((a, b, e)) = pop_numbers(d, texts, stacks) else {
        return underflow(d);
    };
    push_value(e, stacks, Value::Boolean(O::apply(a, b)))
}

/// LogicalAnd and LogicalOr: the newer operand where the truth of the older one is `TRUTH`, else the older one.
pub fn logical<const TRUTH: bool>(d: Depths, texts: &Texts, stacks: &mut [u64]) -> Stepped
    requires { Ready d stacks.old }
    ensures bytes { Meets (Holding texts.now) (Logical TRUTH) d stacks.old result stacks.new }
    ensures lengths { (b : Bytes) → SameLengths b texts.now → Meets (Holding b) (Logical TRUTH) d stacks.old result stacks.new }
{
    let Some((a, b, e)) = pop_two(d, stacks) else {
        return underflow(d);
    };
    if convert::to_boolean(texts, a) == TRUTH {
        return push_value(e, stacks, b);
    }
    push_value(e, stacks, a)
}

// In, and Instanceof, which is the same program: false.
pub fn never(d: Depths, stacks: &mut [u64]) -> Stepped
    requires { Ready d stacks.old }
    ensures { Meets Any In d stacks.old result stacks.new }
{
    let Some((_, _, e)) = pop_two(d, stacks) else {
        return underflow(d);
    };
    push_value(e, stacks, Value::Boolean(false))
}
