//! Elements of arrays, and properties of objects by a number.
ghost use Rattle.std.specs.Prelude.{◌≡◌, ℕ, ◌+◌, ◌<◌, ◌≤◌, true, List, length};
ghost use Rattle.machine.specs.Instruction.{LoadIndex, StoreIndex};
ghost use Rattle.machine.specs.Number.{decimal, format_js_number};
ghost use Rattle.stacks.specs.View.{Ready};
ghost use Rattle.texts.specs.Keeps.{text_limit};
ghost use Rattle.heap.specs.Layout.{property_limit, heap_words};
ghost use Rattle.texts.specs.Sources.{stores_of};
ghost use Rattle.heap.specs.View.{Sized, held_in};
ghost use Rattle.readops.specs.Holds.{Objects};
ghost use Rattle.heapops.specs.Turns.{mem, Loaded};
ghost use Rattle.quick.specs.Quickly.{Quickly};
ghost use Rattle.quick.specs.Stays.{Stays};
ghost use Rattle.reach.specs.Distinct.{Distinct};
ghost use Rattle.reach.specs.Reaches.{Reaches, quick_in, Sure};
ghost use Rattle.reach.specs.Names.{RowIs};
ghost use Rattle.reach.specs.Elements.{Accesses, FindsElement, IndexIs, IsBelow, PutsAlone};

use crate::names::find_property;
use heap::{Heap, ObjectType, PROPERTIES_AT};
use heapops::Counts;
use number::JsNumber;
use number::format::LONGEST_TEXT;
use stacks::Depths;
use std::num::{wrapping_add_usize, wrapping_sub_usize};
use texts::in_use;
use value::Words;

fn access_at(stacks: &[u64], k: usize) -> Option<(u64, u64)>
    requires { k + 5 < length stacks.now }
    ensures { Accesses stacks.now k result }
{
    if stacks[k] != Words::OBJECT || stacks[k + 3] != Words::NUMBER {
        return None;
    }
    Some((stacks[k + 1], stacks[k + 4]))
}

// Of an array made at once, every row less its element's number is the same. It is a guess for the next element, so it may wrap: 16 bits tell all rows apart.
fn row_by(guess: usize, v: u64) -> usize {
    wrapping_add_usize(guess, (v >> 32) as usize) & 0xffff
}

fn guess_by(row: usize, v: u64) -> usize {
    wrapping_sub_usize(row, (v >> 32) as usize) & 0xffff
}

// The number whose digits are all of a number's text, where the number is whole. Of another it is not told, though raw 1 and raw -1 have the text `0`.
fn index_of(v: u64) -> Option<u64>
    ensures { IndexIs v result }
{
    if v < 0x8000_0000_0000_0000 && v % 0x1_0000_0000 == 0 {
        return Some(v / 0x1_0000_0000);
    }
    None
}

// Are the bytes the digits of n? The last is the lowest.
#[tactic(auto, using(crate::specs::Elements::reading_start, crate::specs::Elements::reading_more))]
fn are_digits(s: &[u8], n: u64) -> bool
    ensures { result ≡ true → decimal n ≡ s.now }
{
    let [first, ..] = s else {
        return false;
    };
    let mut m = n;
    for i in (1..s.len()).rev() {
        if m < 10 || u64::from(s[i]) != 48 + m % 10 {
            return false;
        }
        m /= 10;
    }
    m < 10 && u64::from(*first) == 48 + m
}

// Is a number's text the key of the row at place k? Nothing is written for it; but where the number is not whole, it is not told.
fn row_is_element(text: &[u8], heap: &[u64], k: usize, id: u64, v: u64) -> bool
    requires { k + 5 < length heap.now }
    ensures { result ≡ true → RowIs text.now heap.now k id (format_js_number v) }
{
    let Some(n) = index_of(v) else {
        return false;
    };
    if heap[k] != id {
        return false;
    }
    are_digits(texts::cut(text, heap[k + 1], heap[k + 2]), n)
}

// The row whose key is a number's text.
#[inline(never)]
fn search_element(text: &[u8], heap: &[u64], count: usize, id: u64, v: u64) -> Option<usize>
    requires { (count ≤ property_limit) × (length heap.now ≡ heap_words) }
    ensures { FindsElement text.now heap.now count id v result }
{
    let mut buffer = [0; LONGEST_TEXT];
    let size = JsNumber::raw(v).format_js_number(&mut buffer);
    heap::find_property(text, heap, count, id, &buffer[..size])
}

// The same row, guessed by that of the last element, or else searched. The test of the guess is compiled into the callers, and the search stands apart.
#[inline(always)]
fn find_element(
    text: &[u8],
    heap: &[u64],
    count: usize,
    id: u64,
    v: u64,
    guess: usize,
) -> Option<usize>
    requires { (count ≤ property_limit) × (length heap.now ≡ heap_words) }
    ensures { FindsElement text.now heap.now count id v result }
{
    let row = row_by(guess, v);
    if row < count && row_is_element(text, heap, PROPERTIES_AT + 6 * row, id, v) {
        return Some(row);
    }
    search_element(text, heap, count, id, v)
}

fn below_length(
    text: &[u8],
    heap: &[u64],
    count: usize,
    id: u64,
    v: u64,
    guess: usize,
) -> Option<usize>
    requires { (count ≤ property_limit) × (length heap.now ≡ heap_words) }
    ensures { IsBelow text.now heap.now count id v result }
{
    let e = index_of(v)?;
    let p = find_property(text, heap, count, id, b"length", guess)?;
    if e < convert::length_floor(value::read(heap, PROPERTIES_AT + 6 * p + 3)) {
        return Some(p);
    }
    None
}

// A store at or above an array's length stretches it, and one into no object does nothing.
fn puts_alone(
    kind: ObjectType,
    text: &[u8],
    heap: &[u64],
    count: usize,
    id: u64,
    v: u64,
    guess: usize,
) -> Option<usize>
    requires { (count ≤ property_limit) × (length heap.now ≡ heap_words) }
    ensures { PutsAlone kind text.now heap.now count id v result }
{
    match kind {
        ObjectType::Ordinary => Some(0),
        ObjectType::Array => below_length(text, heap, count, id, v, guess),
    }
}

// `guess` is what the last one answered, or any other number.
pub fn load_index(
    c: Counts,
    guess: usize,
    stacks: &mut [u64],
    heap: &[u64],
    text: &[u8],
) -> Option<(Depths, usize)>
    requires ready { Ready c.depths stacks.old }
    requires sized { Sized c.sizes heap.now }
    requires text_le_text_limit { (c.text ≤ text_limit) × (length text.now ≡ text_limit) }
    ensures quickly { (code : List ℕ) → c.code ≤ length code → Quickly (Sure (Distinct c.sizes heap.now c.text text.now) (Objects (stores_of code c.code text.now c.text) (held_in c.sizes heap.now))) LoadIndex c.depths stacks.old (quick_in result) stacks.new }
    ensures stays { Stays c.depths stacks.old (quick_in result) stacks.new }
{
    let d = c.depths;
    let n = d.operands;
    if n < 2 {
        return None;
    }
    let k = 3 * (n - 2);
    let (id, v) = access_at(stacks, k)?;
    if c.sizes.objects as u64 <= id {
        return None;
    }
    let row = find_element(in_use(text, c.text), heap, c.sizes.properties, id, v, guess)?;
    value::bring(stacks, k, heap, PROPERTIES_AT + 6 * row + 3);
    Some((d.with_operands(n - 1), guess_by(row, v)))
}

// `guess` has the row of `length` too, above its 16 lowest bits. The length is tested first: that an element beyond it has no row takes a search of all rows.
pub fn store_index(
    c: Counts,
    guess: usize,
    stacks: &[u64],
    heap: &mut [u64],
    text: &[u8],
) -> Option<(Depths, usize)>
    requires ready { Ready c.depths stacks.now }
    requires sized { Sized c.sizes heap.old }
    requires text_le_text_limit { (c.text ≤ text_limit) × (length text.now ≡ text_limit) }
    ensures reaches { (code o : List ℕ) → c.code ≤ length code → Reaches (Sure (Distinct c.sizes heap.old c.text text.now) (Loaded c.code code)) StoreIndex c (mem stacks.now heap.old text.now o) (quick_in result) (mem stacks.now heap.new text.now o) }
    ensures stays { Stays c.depths stacks.now (quick_in result) stacks.now }
{
    let d = c.depths;
    let n = d.operands;
    if n < 3 {
        return None;
    }
    let k = 3 * (n - 3);
    let (id, v) = access_at(stacks, k)?;
    let t = in_use(text, c.text);
    let count = c.sizes.properties;
    let kind = Heap::new(c.sizes, heap).object_type(id)?;
    let p = puts_alone(kind, t, heap, count, id, v, guess >> 16)?;
    let row = find_element(t, heap, count, id, v, guess)?;
    value::bring(heap, PROPERTIES_AT + 6 * row + 3, stacks, k + 6);
    Some((d.with_operands(n - 3), guess_by(row, v) | (p << 16)))
}
