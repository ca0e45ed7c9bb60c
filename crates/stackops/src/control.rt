//! Jumps, returns, tries and the end of a run.
ghost use Rattle.std.specs.Prelude.{List, ℕ, ◌≤◌, length};
ghost use Rattle.machine.specs.State.{Bytes};
ghost use Rattle.machine.specs.Instruction.{Jump, Return, Throw, EnterTry, LeaveTry, Halt};
ghost use Rattle.stacks.specs.View.{Ready};
ghost use Rattle.texts.specs.Lengths.{SameLengths};
ghost use Rattle.outcome.specs.Meets.{Meets, Any};
ghost use Rattle.fetch.specs.Running.{Runs, Coded, CodedText};
ghost use Rattle.stackops.specs.Control.{JumpIf};

use fetch::{Running, cut_short, fetch_word};
use outcome::{Stepped, ended, failed, push_value, settle, stopped, underflow, went};
use stacks::Depths;
use texts::Texts;
use value::{JsVmError, Value};

pub fn jump(x: Running, d: Depths, code: &[u8], n: usize) -> Stepped
    requires { n ≤ length code.now }
    ensures { (w : List ℕ) → Runs x d w → Meets (Coded x n code.now) Jump d w result w }
{
    let Some((p, e)) = fetch_word(x, d, code, n) else {
        return cut_short(x, d);
    };
    went(e.with_ip(p))
}

/// JumpIfTrue and JumpIfFalse: a jump where the truth of the operand is `TRUTH`.
pub fn jump_if<const TRUTH: bool>(
    x: Running,
    d: Depths,
    code: &[u8],
    n: usize,
    texts: &Texts,
    stacks: &[u64],
) -> Stepped
    requires ready { Ready d stacks.now }
    requires runs { Runs x d stacks.now }
    requires n_in_bounds { n ≤ length code.now }
    ensures bytes { Meets (CodedText x n code.now texts.now) (JumpIf TRUTH) d stacks.now result stacks.now }
    ensures lengths { (b : Bytes) → SameLengths b texts.now → Meets (CodedText x n code.now b) (JumpIf TRUTH) d stacks.now result stacks.now }
{
    let Some((p, e)) = fetch_word(x, d, code, n) else {
        return cut_short(x, d);
    };
    let Some((v, f)) = e.pop(stacks) else {
        return underflow(e);
    };
    if convert::to_boolean(texts, v) == TRUTH {
        return went(f.with_ip(p));
    }
    went(f)
}

pub fn return_value(d: Depths, stacks: &mut [u64]) -> Stepped
    requires { Ready d stacks.old }
    ensures { Meets Any Return d stacks.old result stacks.new }
{
    let Some((v, e)) = d.pop(stacks) else {
        return underflow(d);
    };
    let f = e.pop_frame(stacks);
    push_value(f, stacks, v)
}

pub fn throw(d: Depths, stacks: &mut [u64]) -> Stepped
    requires { Ready d stacks.old }
    ensures { Meets Any Throw d stacks.old result stacks.new }
{
    let Some((v, e)) = d.pop(stacks) else {
        return underflow(d);
    };
    let Some(k) = e.handlers.checked_sub(1) else {
        return failed(JsVmError::UncaughtException(v), e);
    };
    let h = stacks::read_handler(stacks, stacks::HANDLERS_AT + 3 * k);
    let u = e.unwind(h, stacks);
    match u.push(stacks, v) {
        Ok(f) => went(f.with_ip(h.catch as usize)),
        Err(s) => stopped(s, u),
    }
}

pub fn enter_try(x: Running, d: Depths, code: &[u8], n: usize, stacks: &mut [u64]) -> Stepped
    requires ready { Ready d stacks.old }
    requires runs { Runs x d stacks.old }
    requires n_in_bounds { n ≤ length code.now }
    ensures { Meets (Coded x n code.now) EnterTry d stacks.old result stacks.new }
{
    let Some((p, e)) = fetch_word(x, d, code, n) else {
        return cut_short(x, d);
    };
    settle(e.push_handler(stacks, p as u64), e)
}

pub fn leave_try(d: Depths) -> Stepped
    ensures { (w : List ℕ) → Meets Any LeaveTry d w result w }
{
    went(d.pop_handler())
}

// Also the step that finds no frame.
pub fn halt(d: Depths, stacks: &[u64]) -> Stepped
    requires { Ready d stacks.now }
    ensures { Meets Any Halt d stacks.now result stacks.now }
{
    let Some((v, e)) = d.pop(stacks) else {
        return ended(Ok(Value::Undefined), d);
    };
    ended(Ok(v), e)
}
