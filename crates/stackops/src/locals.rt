//! Locals and the operand stack.
ghost use Rattle.std.specs.Prelude.{◌≤◌, length};
ghost use Rattle.machine.specs.Instruction.{LoadLocal, StoreLocal, GetThis, Pop, Dup};
ghost use Rattle.stacks.specs.View.{Ready};
ghost use Rattle.outcome.specs.Meets.{Meets, Any};
ghost use Rattle.fetch.specs.Running.{Runs, Coded};

use fetch::{Running, cut_short, fetch_word};
use outcome::{Stepped, push_value, settle, underflow, went};
use stacks::Depths;
use value::Value;

pub fn load_local(x: Running, d: Depths, code: &[u8], n: usize, stacks: &mut [u64]) -> Stepped
    requires ready { Ready d stacks.old }
    requires runs { Runs x d stacks.old }
    requires n_in_bounds { n ≤ length code.now }
    ensures { Meets (Coded x n code.now) LoadLocal d stacks.old result stacks.new }
{
    let Some((i, e)) = fetch_word(x, d, code, n) else {
        return cut_short(x, d);
    };
    let v = e.read_slot(stacks, i);
    push_value(e, stacks, v)
}

pub fn store_local(x: Running, d: Depths, code: &[u8], n: usize, stacks: &mut [u64]) -> Stepped
    requires ready { Ready d stacks.old }
    requires runs { Runs x d stacks.old }
    requires n_in_bounds { n ≤ length code.now }
    ensures { Meets (Coded x n code.now) StoreLocal d stacks.old result stacks.new }
{
    let Some((i, e)) = fetch_word(x, d, code, n) else {
        return cut_short(x, d);
    };
    let Some((v, f)) = e.pop(stacks) else {
        return underflow(e);
    };
    settle(f.store(stacks, i, v), f)
}

pub fn get_this(d: Depths, stacks: &mut [u64]) -> Stepped
    requires { Ready d stacks.old }
    ensures { Meets Any GetThis d stacks.old result stacks.new }
{
    push_value(d, stacks, Value::Undefined)
}

pub fn pop(d: Depths, stacks: &[u64]) -> Stepped
    requires { Ready d stacks.now }
    ensures { Meets Any Pop d stacks.now result stacks.now }
{
    let Some((_, e)) = d.pop(stacks) else {
        return underflow(d);
    };
    went(e)
}

pub fn dup(d: Depths, stacks: &mut [u64]) -> Stepped
    requires { Ready d stacks.old }
    ensures { Meets Any Dup d stacks.old result stacks.new }
{
    let v = d.top(stacks);
    push_value(d, stacks, v)
}
