//! The bench sheet's rows on operands and slots, and the same at the limits of frames and handlers.
ghost use Rattle.std.specs.Prelude.{◌≡◌, ℕ, ◌<◌, List, length};
ghost use Rattle.stacks.specs.Layout.{stack_words};
ghost use Rattle.stacks.specs.View.{Ready, MadeReady};

use stacks::Depths;
use value::{JsVmError, Space, Stop, Value};

// Fewer depths than any limit: nothing stands.
fn none() -> Depths
    ensures { (w : List ℕ) → length w ≡ stack_words → Ready result w }
{
    Depths {
        operands: 0,
        slots: 0,
        frames: 0,
        handlers: 0,
        ip: 0,
    }
}

// The depths after an act; an error or a refusal leaves them.
fn after(d: Depths, made: Result<Depths, Stop>) -> Depths
    ensures { (w w' : List ℕ) → Ready d w → MadeReady made w w' → Ready result w' }
{
    match made {
        Ok(e) => e,
        Err(_) => d,
    }
}

fn operands(stacks: &mut [u64], n: usize) -> Depths
    requires { length stacks.old ≡ stack_words }
    ensures { Ready result stacks.new }
{
    let mut d = none();
    for i in 0..n {
        d = after(d, d.push(stacks, Value::Number(i as u64)));
    }
    d
}

fn frames(stacks: &mut [u64], n: usize) -> Depths
    requires { length stacks.old ≡ stack_words }
    ensures { Ready result stacks.new }
{
    let mut d = none();
    for _ in 0..n {
        d = after(d, d.push_frame(stacks, 0, 0));
    }
    d
}

fn handlers(stacks: &mut [u64], n: usize) -> Depths
    requires { length stacks.old ≡ stack_words }
    ensures { Ready result stacks.new }
{
    let mut d = frames(stacks, 1);
    for _ in 0..n {
        d = after(d, d.push_handler(stacks, 0));
    }
    d
}

// A number as the only operand.
pub fn one(stacks: &mut [u64], n: u64)
    requires { length stacks.old ≡ stack_words }
{
    let _ = none().push(stacks, Value::Number(n));
}

// A push onto n operands succeeds.
fn push_fits(stacks: &mut [u64], n: usize) -> bool
    requires { length stacks.old ≡ stack_words }
{
    let d = operands(stacks, n);
    d.push(stacks, Value::Null).is_ok()
}

// A push onto n operands is 16.
pub fn push_overflows(stacks: &mut [u64], n: usize) -> bool
    requires { length stacks.old ≡ stack_words }
{
    let d = operands(stacks, n);
    let made = d.push(stacks, Value::Null);
    matches!(made, Err(Stop::Failed(JsVmError::StackOverflow)))
}

// Slot i stored by the only frame is accepted.
fn slot_fits(stacks: &mut [u64], i: usize) -> bool
    requires { (length stacks.old ≡ stack_words) × (i < 65536) }
{
    let d = frames(stacks, 1);
    d.store(stacks, i, Value::Null).is_ok()
}

fn slot_refused(stacks: &mut [u64], i: usize) -> bool
    requires { (length stacks.old ≡ stack_words) × (i < 65536) }
{
    let d = frames(stacks, 1);
    let made = d.store(stacks, i, Value::Null);
    matches!(made, Err(Stop::Refused(Space::Slots)))
}

fn frame_refused(stacks: &mut [u64], n: usize) -> bool
    requires { length stacks.old ≡ stack_words }
{
    let d = frames(stacks, n);
    let made = d.push_frame(stacks, 0, 0);
    matches!(made, Err(Stop::Refused(Space::Frames)))
}

fn handler_refused(stacks: &mut [u64], n: usize) -> bool
    requires { length stacks.old ≡ stack_words }
{
    let d = handlers(stacks, n);
    let made = d.push_handler(stacks, 0);
    matches!(made, Err(Stop::Refused(Space::Handlers)))
}

pub fn is_number(v: Value, n: u64) -> bool {
    matches!(v, Value::Number(k) if k == n)
}

pub fn is_undefined(v: Value) -> bool {
    matches!(v, Value::Undefined)
}

// Operands 0 to 2, of which the first is called with the others: of three parameters the third is Undefined.
fn arguments_passed(stacks: &mut [u64]) -> bool
    requires { length stacks.old ≡ stack_words }
{
    let three = operands(stacks, 3);
    let d = three.truncate(3);
    if 1000 < d.operands {
        return false;
    }
    let made = d.call_frame(stacks, 0, 1, 2, 3, 4);
    let e = after(d, made);
    let first = is_number(e.read_slot(stacks, 0), 1);
    let second = is_number(e.read_slot(stacks, 1), 2);
    let third = is_undefined(e.read_slot(stacks, 2));
    first && second && third && e.slots == 4
}

// What an empty stack pops, and what is on top of it.
fn empty_pops(stacks: &mut [u64]) -> bool
    requires { length stacks.old ≡ stack_words }
{
    let d = operands(stacks, 0);
    d.pop(stacks).is_none() && is_undefined(d.top(stacks))
}

/// Operands and slots; then frames, handlers, a call, nothing to pop.
pub fn rows(stacks: &mut [u64]) -> [bool; 8]
    requires { length stacks.old ≡ stack_words }
{
    [
        push_fits(stacks, 1023),
        push_overflows(stacks, 1024),
        slot_fits(stacks, 2047),
        slot_refused(stacks, 2048),
        frame_refused(stacks, stacks::FRAME_LIMIT),
        handler_refused(stacks, stacks::HANDLER_LIMIT),
        arguments_passed(stacks),
        empty_pops(stacks),
    ]
}
