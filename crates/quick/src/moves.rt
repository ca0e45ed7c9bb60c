//! Constants, locals and the operand stack.
ghost use Rattle.machine.specs.Instruction.{LoadConst, LoadLocal, StoreLocal, Pop, Dup};
ghost use Rattle.std.specs.Prelude.{ℕ, List};
ghost use Rattle.stacks.specs.View.{Ready};
ghost use Rattle.outcome.specs.Meets.{Any};
ghost use Rattle.fetch.specs.Running.{Coded};
ghost use Rattle.readops.specs.Holds.{Constants};
ghost use Rattle.quick.specs.Quickly.{Quickly, Operand};
ghost use Rattle.quick.specs.Stays.{Stays, InFrame};

use crate::{Here, push, push_copy};
use fetch::Running;
use reader::Constant;
use stacks::Depths;
use value::Value;

// A function is left: it is registered.
pub fn load_const(
    x: Running,
    y: Here,
    d: Depths,
    i: usize,
    code: &[u8],
    n: usize,
    places: &[u16],
    stacks: &mut [u64],
) -> Option<Depths>
    requires ready { Ready d stacks.old }
    requires in_frame { InFrame x y d stacks.old }
    requires operand { Operand x n code.now d i }
    ensures quickly { Quickly (Constants x n code.now places.now) LoadConst d stacks.old result stacks.new }
    ensures stays { Stays d stacks.old result stacks.new }
{
    let e = d.with_ip(d.ip + 2);
    let k = image::near(code, places, x.shape, i)?;
    match k {
        Constant::Number(v) => push(e, stacks, Value::Number(v)),
        Constant::Str(at, size) => push(e, stacks, Value::CodeText(at, size)),
        Constant::Bool(b) => push(e, stacks, Value::Boolean(b)),
        Constant::Null => push(e, stacks, Value::Null),
        Constant::Undefined => push(e, stacks, Value::Undefined),
        Constant::Function(_) => None,
    }
}

pub fn load_local(
    x: Running,
    y: Here,
    d: Depths,
    i: usize,
    code: &[u8],
    n: usize,
    stacks: &mut [u64],
) -> Option<Depths>
    requires ready { Ready d stacks.old }
    requires in_frame { InFrame x y d stacks.old }
    requires operand { Operand x n code.now d i }
    ensures quickly { Quickly (Coded x n code.now) LoadLocal d stacks.old result stacks.new }
    ensures stays { Stays d stacks.old result stacks.new }
{
    if y.count <= i {
        return None;
    }
    push_copy(d.with_ip(d.ip + 2), stacks, y.slots + 3 * i)
}

// A slot that the frame has already.
pub fn store_local(
    x: Running,
    y: Here,
    d: Depths,
    i: usize,
    code: &[u8],
    n: usize,
    stacks: &mut [u64],
) -> Option<Depths>
    requires ready { Ready d stacks.old }
    requires in_frame { InFrame x y d stacks.old }
    requires operand { Operand x n code.now d i }
    ensures quickly { Quickly (Coded x n code.now) StoreLocal d stacks.old result stacks.new }
    ensures stays { Stays d stacks.old result stacks.new }
{
    let c = d.operands;
    if c == 0 || y.count <= i {
        return None;
    }
    value::copy(stacks, y.slots + 3 * i, 3 * (c - 1));
    Some(d.with_ip(d.ip + 2).with_operands(c - 1))
}

pub fn pop(d: Depths) -> Option<Depths>
    ensures quickly { (w : List ℕ) → Ready d w → Quickly Any Pop d w result w }
    ensures stays { (w : List ℕ) → Stays d w result w }
{
    let c = d.operands;
    if c == 0 {
        return None;
    }
    Some(d.with_operands(c - 1))
}

pub fn dup(d: Depths, stacks: &mut [u64]) -> Option<Depths>
    requires { Ready d stacks.old }
    ensures quickly { Quickly Any Dup d stacks.old result stacks.new }
    ensures stays { Stays d stacks.old result stacks.new }
{
    let c = d.operands;
    if c == 0 {
        return None;
    }
    push_copy(d, stacks, 3 * (c - 1))
}
