//! Globals and properties that are there, read.
ghost use Rattle.std.specs.Prelude.{◌≤◌, length};
ghost use Rattle.machine.specs.Instruction.{LoadGlobal, LoadProperty};
ghost use Rattle.stacks.specs.View.{Ready};
ghost use Rattle.texts.specs.Sources.{stores_of};
ghost use Rattle.heap.specs.View.{Sized, held_in};
ghost use Rattle.fetch.specs.Running.{Runs};
ghost use Rattle.readops.specs.Holds.{Named};
ghost use Rattle.quick.specs.Quickly.{Quickly, Operand};
ghost use Rattle.quick.specs.Stays.{Stays};
ghost use Rattle.reach.specs.Distinct.{Distinct};
ghost use Rattle.reach.specs.Reaches.{quick_in, Sure};

use crate::names::{find_global, find_property, name_at};
use crate::with_count;
use fetch::Running;
use heap::{GLOBALS_AT, PROPERTIES_AT};
use heapops::Counts;
use quick::push_from;
use stacks::Depths;
use texts::{cut, in_use};
use value::Value;

// `guess` is a row that may have the name; the row that has it is answered. So it is for every function here.
pub fn load_global(
    x: Running,
    c: Counts,
    i: usize,
    guess: usize,
    code: &[u8],
    places: &[u16],
    stacks: &mut [u64],
    heap: &[u64],
    text: &[u8],
) -> Option<(Depths, usize)>
    requires ready { Ready c.depths stacks.old }
    requires runs { Runs x c.depths stacks.old }
    requires operand { Operand x c.code code.now c.depths i }
    requires code_in_bounds { c.code ≤ length code.now }
    requires sized { Sized c.sizes heap.now }
    requires text_in_bounds { c.text ≤ length text.now }
    ensures quickly { Quickly (Sure (Distinct c.sizes heap.now c.text text.now) (Named x c.code code.now places.now (stores_of code.now c.code text.now c.text) (held_in c.sizes heap.now))) LoadGlobal c.depths stacks.old (quick_in result) stacks.new }
    ensures stays { Stays c.depths stacks.old (quick_in result) stacks.new }
{
    let d = c.depths;
    let e = d.with_ip(d.ip + 2);
    let (at, size) = name_at(x, i, code, places)?;
    let name = cut(in_use(code, c.code), at, size);
    let j = find_global(in_use(text, c.text), heap, c.sizes.globals, name, guess)?;
    with_count(push_from(e, stacks, heap, GLOBALS_AT + 6 * j + 3), j)
}

pub fn load_property(
    x: Running,
    c: Counts,
    i: usize,
    guess: usize,
    code: &[u8],
    places: &[u16],
    stacks: &mut [u64],
    heap: &[u64],
    text: &[u8],
) -> Option<(Depths, usize)>
    requires ready { Ready c.depths stacks.old }
    requires runs { Runs x c.depths stacks.old }
    requires operand { Operand x c.code code.now c.depths i }
    requires code_in_bounds { c.code ≤ length code.now }
    requires sized { Sized c.sizes heap.now }
    requires text_in_bounds { c.text ≤ length text.now }
    ensures quickly { Quickly (Sure (Distinct c.sizes heap.now c.text text.now) (Named x c.code code.now places.now (stores_of code.now c.code text.now c.text) (held_in c.sizes heap.now))) LoadProperty c.depths stacks.old (quick_in result) stacks.new }
    ensures stays { Stays c.depths stacks.old (quick_in result) stacks.new }
{
    let d = c.depths;
    let e = d.with_ip(d.ip + 2);
    let n = e.operands;
    if n == 0 {
        return None;
    }
    let Value::Object(id) = value::read(stacks, 3 * (n - 1)) else {
        return None;
    };
    if c.sizes.objects as u64 <= id {
        return None;
    }
    let (at, size) = name_at(x, i, code, places)?;
    let key = cut(in_use(code, c.code), at, size);
    let j = find_property(
        in_use(text, c.text),
        heap,
        c.sizes.properties,
        id,
        key,
        guess,
    )?;
    let f = e.with_operands(n - 1);
    with_count(push_from(f, stacks, heap, PROPERTIES_AT + 6 * j + 3), j)
}
