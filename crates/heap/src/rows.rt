//! The rows of properties and globals found by their keys and names, whose bytes lie in the text in use. No byte is read where the lengths differ.
ghost use Rattle.std.specs.Prelude.{◌≡◌, ℕ, List, ◌+◌, ◌≤◌, ◌<◌, length};
ghost use Rattle.machine.specs.State.{property_in};
ghost use Rattle.value.specs.Words.{value_of};
ghost use Rattle.heap.specs.Layout.{property_limit, global_limit, heap_words};
ghost use Rattle.heap.specs.View.{property_of, global_of, row_at, properties_of, globals_of};
ghost use Rattle.heap.specs.Rows.{Finds};
ghost use Rattle.heap.specs.Finds.{is_pair, is_named, pair_at, name_at, stores, global_in};

use crate::{GLOBALS_AT, PROPERTIES_AT};
use texts::{cut, equal_bytes};
use value::Value;

fn is_pair(text: &[u8], heap: &[u64], k: usize, owner: u64, key: &[u8]) -> bool
    requires { k + 5 < length heap.now }
    ensures { result ≡ is_pair text.now owner key.now (property_of (row_at heap.now k)) }
{
    heap[k] == owner && equal_bytes(cut(text, heap[k + 1], heap[k + 2]), key)
}

fn is_named(text: &[u8], heap: &[u64], k: usize, name: &[u8]) -> bool
    requires { k + 5 < length heap.now }
    ensures { result ≡ is_named text.now name.now (global_of (row_at heap.now k)) }
{
    if heap[k] != 0 {
        return equal_bytes(b"console", name);
    }
    equal_bytes(cut(text, heap[k + 1], heap[k + 2]), name)
}

/// The first property of an owner under a key.
pub fn find_property(
    text: &[u8],
    heap: &[u64],
    count: usize,
    owner: u64,
    key: &[u8],
) -> Option<usize>
    requires { (count ≤ property_limit) × (length heap.now ≡ heap_words) }
    ensures { Finds (pair_at text.now heap.now owner key.now) count result }
{
    (0..count).find(|i| is_pair(text, heap, PROPERTIES_AT + 6 * *i, owner, key))
}

/// The first global with a name.
pub fn find_global(text: &[u8], heap: &[u64], count: usize, name: &[u8]) -> Option<usize>
    requires { (count ≤ global_limit) × (length heap.now ≡ heap_words) }
    ensures { Finds (name_at text.now heap.now name.now) count result }
{
    (0..count).find(|i| is_named(text, heap, GLOBALS_AT + 6 * *i, name))
}

/// The value of a property, or Undefined.
pub fn property(text: &[u8], heap: &[u64], count: usize, owner: u64, key: &[u8]) -> Value
    requires { (count ≤ property_limit) × (length heap.now ≡ heap_words) }
    ensures { (c : List ℕ) → value_of result ≡ property_in (stores c text.now) (properties_of heap.now count) owner key.now }
{
    match find_property(text, heap, count, owner, key) {
        Some(i) => value::read(heap, PROPERTIES_AT + 6 * i + 3),
        None => Value::Undefined,
    }
}

/// The value of a global, or Undefined.
pub fn global(text: &[u8], heap: &[u64], count: usize, name: &[u8]) -> Value
    requires { (count ≤ global_limit) × (length heap.now ≡ heap_words) }
    ensures { (c : List ℕ) → value_of result ≡ global_in (stores c text.now) (globals_of heap.now count) name.now }
{
    match find_global(text, heap, count, name) {
        Some(i) => value::read(heap, GLOBALS_AT + 6 * i + 3),
        None => Value::Undefined,
    }
}
