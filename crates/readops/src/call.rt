//! Call of a function; an object, which prints a line, is left to those that change more.
ghost use Rattle.std.specs.Prelude.{List, ℕ, ◌+◌, ◌≤◌, ◌<◌, length};
ghost use Rattle.machine.specs.Instruction.{Call};
ghost use Rattle.machine.specs.State.{operand_limit};
ghost use Rattle.value.specs.Words.{value_of};
ghost use Rattle.heap.specs.View.{function_in};
ghost use Rattle.stacks.specs.View.{Ready, arguments};
ghost use Rattle.outcome.specs.Meets.{Meets};
ghost use Rattle.fetch.specs.Running.{Runs};
ghost use Rattle.readops.specs.Holds.{Templates, Callable, CalleeOf, calling};

use fetch::{Running, cut_short, fetch};
use heap::{Heap, Registered};
use outcome::{Part, Stepped, failed, left_to_do, settle, underflow};
use stacks::Depths;
use value::{JsVmError, Value};

// What a value is to Call: a function, an object, which prints its arguments, or what cannot be called.
#[derive(Clone, Copy)]
pub enum Callee {
    Function(u64),
    Object(u64),
    Other,
}

pub fn callee_of(v: Value) -> Callee
    ensures { CalleeOf (value_of v) result }
{
    match v {
        Value::Function(i) => Callee::Function(i),
        Value::Object(i) => Callee::Object(i),
        _ => Callee::Other,
    }
}

// Callee and arguments are popped: the arguments stand right above the callee, above the operands of d.
pub fn call_function(
    d: Depths,
    argc: usize,
    f: Option<Registered>,
    rows: &[u16],
    starts: &[u16],
    images: usize,
    stacks: &mut [u64],
) -> Stepped
    requires ready { Ready d stacks.old }
    requires argc_bound { d.operands + 1 + argc ≤ operand_limit }
    ensures { (code places : List ℕ) → Meets (Templates code places rows.now starts.now images) (calling (function_in f) (arguments stacks.old (d.operands + 1) argc)) d stacks.old result stacks.new }
{
    let Some(Registered { image, template }) = f else {
        return failed(JsVmError::InvalidFunctionId, d);
    };
    let p = image::template_at(rows, starts, images, image as usize, template as usize);
    settle(
        d.call_frame(stacks, image, template, argc, p.param_count, p.local_count),
        d,
    )
}

pub fn call(
    x: Running,
    d: Depths,
    code: &[u8],
    n: usize,
    rows: &[u16],
    starts: &[u16],
    images: usize,
    heap: &Heap,
    stacks: &mut [u64],
) -> Stepped
    requires ready { Ready d stacks.old }
    requires runs { Runs x d stacks.old }
    requires n_in_bounds { n ≤ length code.now }
    ensures { (places : List ℕ) → Meets (Callable x n code.now places rows.now starts.now images heap.now) Call d stacks.old result stacks.new }
{
    let Some((argc, e)) = fetch(x, d, code, n) else {
        return cut_short(x, d);
    };
    let Some(at) = e.operands.checked_sub(argc + 1) else {
        return underflow(e);
    };
    let f = e.with_operands(at);
    match callee_of(value::read(stacks, 3 * at)) {
        Callee::Other => failed(JsVmError::NotCallable, f),
        Callee::Object(_) => left_to_do(Part::Print(argc), f),
        Callee::Function(i) => {
            let g = heap.function(i);
            call_function(f, argc, g, rows, starts, images, stacks)
        }
    }
}
