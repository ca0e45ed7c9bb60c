//! Jumps, tries, throws and returns.
ghost use Rattle.std.specs.Prelude.{◌≡◌, ℕ, ◌-◌, List};
ghost use Rattle.machine.specs.Instruction.{Jump, Return, Throw, EnterTry, LeaveTry};
ghost use Rattle.stacks.specs.View.{Ready};
ghost use Rattle.outcome.specs.Meets.{Any};
ghost use Rattle.fetch.specs.Running.{Runs, Coded};
ghost use Rattle.stackops.specs.Control.{JumpIf};
ghost use Rattle.quick.specs.Quickly.{Quickly, Operand};
ghost use Rattle.quick.specs.Stays.{Stays, InFrame};
ghost use Rattle.quick.specs.Senses.{Senses};

use crate::Here;
use fetch::Running;
use number::JsNumber;
use stacks::{Depths, HANDLER_LIMIT, HANDLERS_AT};
use value::Value;

pub fn jump(x: Running, d: Depths, i: usize, code: &[u8], n: usize) -> Option<Depths>
    requires { Operand x n code.now d i }
    ensures quickly { (w : List ℕ) → Ready d w → Runs x d w → Quickly (Coded x n code.now) Jump d w result w }
    ensures stays { (w : List ℕ) → Stays d w result w }
{
    Some(d.with_ip(i))
}

fn truth_of(d: Depths, stacks: &[u64]) -> Option<bool>
    requires { Ready d stacks.now }
    ensures { Senses d stacks.now result }
{
    let c = d.operands;
    if c == 0 {
        return None;
    }
    match value::read(stacks, 3 * (c - 1)) {
        Value::Boolean(b) => Some(b),
        Value::Number(k) => Some(k != JsNumber::JS_ZERO.bits && k != JsNumber::JS_NAN.bits),
        _ => None,
    }
}

/// JumpIfTrue and JumpIfFalse: a jump where the truth of the operand is `TRUTH`.
pub fn jump_if<const TRUTH: bool>(
    x: Running,
    y: Here,
    d: Depths,
    i: usize,
    code: &[u8],
    n: usize,
    stacks: &[u64],
) -> Option<Depths>
    requires ready { Ready d stacks.now }
    requires in_frame { InFrame x y d stacks.now }
    requires operand { Operand x n code.now d i }
    ensures quickly { Quickly (Coded x n code.now) (JumpIf TRUTH) d stacks.now result stacks.now }
    ensures stays { Stays d stacks.now result stacks.now }
{
    let e = d.with_ip(d.ip + 2);
    let t = truth_of(e, stacks)?;
    let f = e.with_operands(e.operands - 1);
    if t == TRUTH {
        return Some(f.with_ip(i));
    }
    Some(f)
}

// A throw that is caught in the frame that throws.
pub fn throw(x: Running, y: Here, d: Depths, stacks: &mut [u64]) -> Option<Depths>
    requires ready { Ready d stacks.old }
    requires in_frame { InFrame x y d stacks.old }
    ensures quickly { Quickly Any Throw d stacks.old result stacks.new }
    ensures stays { Stays d stacks.old result stacks.new }
{
    let c = d.operands;
    let k = d.handlers;
    if c == 0 || k == 0 {
        return None;
    }
    let h = stacks::read_handler(stacks, HANDLERS_AT + 3 * (k - 1));
    if h.frames != d.frames as u64 {
        return None;
    }
    let m = (c - 1).min(h.operands as usize);
    value::copy(stacks, 3 * m, 3 * (c - 1));
    Some(Depths {
        operands: m + 1,
        handlers: k - 1,
        ip: h.catch as usize,
        ..d
    })
}

pub fn enter_try(
    x: Running,
    y: Here,
    d: Depths,
    i: usize,
    code: &[u8],
    n: usize,
    stacks: &mut [u64],
) -> Option<Depths>
    requires ready { Ready d stacks.old }
    requires in_frame { InFrame x y d stacks.old }
    requires operand { Operand x n code.now d i }
    ensures quickly { Quickly (Coded x n code.now) EnterTry d stacks.old result stacks.new }
    ensures stays { Stays d stacks.old result stacks.new }
{
    let h = d.handlers;
    if HANDLER_LIMIT <= h {
        return None;
    }
    let k = HANDLERS_AT + 3 * h;
    stacks[k] = i as u64;
    stacks[k + 1] = d.operands as u64;
    stacks[k + 2] = d.frames as u64;
    Some(Depths {
        handlers: h + 1,
        ip: d.ip + 2,
        ..d
    })
}

pub fn leave_try(d: Depths) -> Option<Depths>
    ensures quickly { (w : List ℕ) → Ready d w → Quickly Any LeaveTry d w result w }
    ensures stays { (w : List ℕ) → Stays d w result w }
{
    let h = d.handlers;
    if h == 0 {
        return None;
    }
    Some(Depths {
        handlers: h - 1,
        ..d
    })
}

// These two may take frames off. The value that is returned stands where it is to stand. Where a handler goes with the frame, the dispatcher does it: a loop over
// handlers here, in every step's loop, costs each step some instructions.
pub fn return_value(d: Depths, stacks: &[u64]) -> Option<Depths>
    requires { Ready d stacks.now }
    ensures { Quickly Any Return d stacks.now result stacks.now }
{
    let c = d.operands;
    let k = d.frames.saturating_sub(1);
    if c == 0 || stacks::saved_more(d.handlers, k, stacks) {
        return None;
    }
    let e = d.with_operands(c - 1).cut_frames(k, stacks);
    Some(e.with_operands(c))
}

pub fn throw_far(d: Depths, stacks: &mut [u64]) -> Option<Depths>
    requires { Ready d stacks.old }
    ensures { Quickly Any Throw d stacks.old result stacks.new }
{
    let c = d.operands;
    let k = d.handlers;
    if c == 0 || k == 0 {
        return None;
    }
    let e = d.with_operands(c - 1);
    let h = stacks::read_handler(stacks, HANDLERS_AT + 3 * (k - 1));
    let u = e.unwind(h, stacks);
    let f = u.push_copy(stacks, 3 * (c - 1)).ok()?;
    Some(f.with_ip(h.catch as usize))
}
