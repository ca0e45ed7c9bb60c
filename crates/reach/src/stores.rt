//! Globals and properties that are there, written.
ghost use Rattle.std.specs.Prelude.{◌≡◌, ℕ, ◌≤◌, List, length};
ghost use Rattle.machine.specs.Instruction.{StoreGlobal, StoreProperty};
ghost use Rattle.stacks.specs.View.{Ready};
ghost use Rattle.texts.specs.Keeps.{text_limit};
ghost use Rattle.heap.specs.View.{Sized};
ghost use Rattle.fetch.specs.Running.{Runs};
ghost use Rattle.readops.specs.Holds.{Constants};
ghost use Rattle.heapops.specs.Turns.{mem};
ghost use Rattle.quick.specs.Quickly.{Operand};
ghost use Rattle.quick.specs.Stays.{Stays};
ghost use Rattle.reach.specs.Distinct.{Distinct};
ghost use Rattle.reach.specs.Reaches.{Reaches, quick_in, Sure};

use crate::names::{find_global, find_property, name_at};
use fetch::Running;
use heap::{GLOBALS_AT, Heap, ObjectType, PROPERTIES_AT};
use heapops::Counts;
use stacks::Depths;
use texts::{cut, in_use};
use value::Value;

pub fn store_global(
    x: Running,
    c: Counts,
    i: usize,
    guess: usize,
    code: &[u8],
    places: &[u16],
    stacks: &[u64],
    heap: &mut [u64],
    text: &[u8],
) -> Option<(Depths, usize)>
    requires ready { Ready c.depths stacks.now }
    requires runs { Runs x c.depths stacks.now }
    requires operand { Operand x c.code code.now c.depths i }
    requires code_in_bounds { c.code ≤ length code.now }
    requires sized { Sized c.sizes heap.old }
    requires text_le_text_limit { (c.text ≤ text_limit) × (length text.now ≡ text_limit) }
    ensures reaches { (o : List ℕ) → Reaches (Sure (Distinct c.sizes heap.old c.text text.now) (Constants x c.code code.now places.now)) StoreGlobal c (mem stacks.now heap.old text.now o) (quick_in result) (mem stacks.now heap.new text.now o) }
    ensures stays { Stays c.depths stacks.now (quick_in result) stacks.now }
{
    let d = c.depths;
    let e = d.with_ip(d.ip + 2);
    let k = e.operands;
    if k == 0 {
        return None;
    }
    let (at, size) = name_at(x, i, code, places)?;
    let name = cut(in_use(code, c.code), at, size);
    let j = find_global(in_use(text, c.text), heap, c.sizes.globals, name, guess)?;
    value::bring(heap, GLOBALS_AT + 6 * j + 3, stacks, 3 * (k - 1));
    Some((e.with_operands(k - 1), j))
}

// Of an ordinary object: an array may have to stretch.
pub fn store_property(
    x: Running,
    c: Counts,
    i: usize,
    guess: usize,
    code: &[u8],
    places: &[u16],
    stacks: &[u64],
    heap: &mut [u64],
    text: &[u8],
) -> Option<(Depths, usize)>
    requires ready { Ready c.depths stacks.now }
    requires runs { Runs x c.depths stacks.now }
    requires operand { Operand x c.code code.now c.depths i }
    requires code_in_bounds { c.code ≤ length code.now }
    requires sized { Sized c.sizes heap.old }
    requires text_le_text_limit { (c.text ≤ text_limit) × (length text.now ≡ text_limit) }
    ensures reaches { (o : List ℕ) → Reaches (Sure (Distinct c.sizes heap.old c.text text.now) (Constants x c.code code.now places.now)) StoreProperty c (mem stacks.now heap.old text.now o) (quick_in result) (mem stacks.now heap.new text.now o) }
    ensures stays { Stays c.depths stacks.now (quick_in result) stacks.now }
{
    let d = c.depths;
    let e = d.with_ip(d.ip + 2);
    let k = e.operands;
    if k < 2 {
        return None;
    }
    let Value::Object(id) = value::read(stacks, 3 * (k - 2)) else {
        return None;
    };
    let ObjectType::Ordinary = Heap::new(c.sizes, heap).object_type(id)? else {
        return None;
    };
    let (at, size) = name_at(x, i, code, places)?;
    let key = cut(in_use(code, c.code), at, size);
    let j = find_property(
        in_use(text, c.text),
        heap,
        c.sizes.properties,
        id,
        key,
        guess,
    )?;
    value::bring(heap, PROPERTIES_AT + 6 * j + 3, stacks, 3 * (k - 1));
    Some((e.with_operands(k - 2), j))
}
