//! The name that an instruction gives, if it is a text of the code, and the row that has it: the one that is guessed, or else the one that is searched.
ghost use Rattle.std.specs.Prelude.{◌≡◌, ◌+◌, ◌<◌, ◌≤◌, true, length};
ghost use Rattle.heap.specs.Layout.{property_limit, global_limit, heap_words};
ghost use Rattle.heap.specs.Finds.{name_at, pair_at};
ghost use Rattle.readops.specs.Constants.{constant_in};
ghost use Rattle.reach.specs.Distinct.{Locates};
ghost use Rattle.reach.specs.Names.{Names, RowIs};

use fetch::Running;
use heap::{GLOBALS_AT, PROPERTIES_AT};
use reader::Constant;

pub fn name_at(x: Running, i: usize, code: &[u8], places: &[u16]) -> Option<(u64, u64)>
    ensures { Names (constant_in x code.now places.now i) result }
{
    let Constant::Str(at, size) = image::near(code, places, x.shape, i)? else {
        return None;
    };
    Some((at, size))
}

// Has the row at place k this head, and this key in the text in use?
fn row_is(text: &[u8], heap: &[u64], k: usize, head: u64, key: &[u8]) -> bool
    requires { k + 5 < length heap.now }
    ensures { result ≡ true → RowIs text.now heap.now k head key.now }
{
    if heap[k] != head {
        return false;
    }
    let size = heap[k + 2];
    if size != key.len() as u64 {
        return false;
    }
    texts::equal_bytes(texts::cut(text, heap[k + 1], size), key)
}

// The test of the guess is compiled into the callers, and the search stands apart; so for the next.
#[inline(always)]
pub fn find_property(
    text: &[u8],
    heap: &[u64],
    count: usize,
    owner: u64,
    key: &[u8],
    guess: usize,
) -> Option<usize>
    requires { (count ≤ property_limit) × (length heap.now ≡ heap_words) }
    ensures { Locates (pair_at text.now heap.now owner key.now) count result }
{
    if guess < count && row_is(text, heap, PROPERTIES_AT + 6 * guess, owner, key) {
        return Some(guess);
    }
    heap::find_property(text, heap, count, owner, key)
}

// `console`, whose name is kept nowhere, is searched.
#[inline(always)]
pub fn find_global(
    text: &[u8],
    heap: &[u64],
    count: usize,
    name: &[u8],
    guess: usize,
) -> Option<usize>
    requires { (count ≤ global_limit) × (length heap.now ≡ heap_words) }
    ensures { Locates (name_at text.now heap.now name.now) count result }
{
    if guess < count && row_is(text, heap, GLOBALS_AT + 6 * guess, 0, name) {
        return Some(guess);
    }
    heap::find_global(text, heap, count, name)
}
