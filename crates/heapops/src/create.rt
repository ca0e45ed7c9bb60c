//! Functions, objects and arrays: kept before the push.
ghost use Rattle.std.specs.Prelude.{◌≡◌, List, ℕ, ◌≤◌, length};
ghost use Rattle.machine.specs.Instruction.{CreateObject, CreateArray};
ghost use Rattle.stacks.specs.View.{Ready};
ghost use Rattle.texts.specs.Keeps.{text_limit};
ghost use Rattle.heap.specs.View.{Sized};
ghost use Rattle.outcome.specs.Meets.{Any, registers};
ghost use Rattle.fetch.specs.Running.{Runs, Coded};
ghost use Rattle.heapops.specs.Turns.{Turns, mem};

use crate::{Counts, Turned, failed, push_made};
use fetch::{Running, fetch, past_end};
use value::{JsVmError, Value};

// `register_function`
pub fn register(
    c: Counts,
    image: u64,
    template: u64,
    stacks: &mut [u64],
    heap: &mut [u64],
) -> Turned
    requires ready { Ready c.depths stacks.old }
    requires sized { Sized c.sizes heap.old }
    ensures { (t o : List ℕ) → Turns Any (registers image template) c (mem stacks.old heap.old t o) result (mem stacks.new heap.new t o) }
{
    let id = c.sizes.functions as u64;
    let added = heap::add_function(c.sizes, heap, image, template);
    push_made(c, c.depths, c.grown(added), stacks, Value::Function(id))
}

pub fn create_object(c: Counts, stacks: &mut [u64], heap: &mut [u64]) -> Turned
    requires ready { Ready c.depths stacks.old }
    requires sized { Sized c.sizes heap.old }
    ensures { (t o : List ℕ) → Turns Any CreateObject c (mem stacks.old heap.old t o) result (mem stacks.new heap.new t o) }
{
    let id = c.sizes.objects as u64;
    let added = heap::add_object(c.sizes, heap);
    push_made(c, c.depths, c.grown(added), stacks, Value::Object(id))
}

pub fn create_array(
    x: Running,
    c: Counts,
    code: &[u8],
    stacks: &mut [u64],
    heap: &mut [u64],
    text: &mut [u8],
) -> Turned
    requires ready { Ready c.depths stacks.old }
    requires runs { Runs x c.depths stacks.old }
    requires code_in_bounds { c.code ≤ length code.now }
    requires sized { Sized c.sizes heap.old }
    requires text_le_text_limit { (c.text ≤ text_limit) × (length text.old ≡ text_limit) }
    ensures { (o : List ℕ) → Turns (Coded x c.code code.now) CreateArray c (mem stacks.old heap.old text.old o) result (mem stacks.new heap.new text.new o) }
{
    let Some((count, d)) = fetch(x, c.depths, code, c.code) else {
        return failed(c, past_end(x, c.depths), JsVmError::IpOutOfBounds);
    };
    let id = c.sizes.objects as u64;
    let stand = d.operands;
    let from = stand.saturating_sub(count);
    let given = count.min(stand);
    let added = arrays::add_array(c.sizes, heap, text, c.text, stacks, from, given, count);
    push_made(
        c,
        d.truncate(count),
        c.placed(added),
        stacks,
        Value::Object(id),
    )
}
