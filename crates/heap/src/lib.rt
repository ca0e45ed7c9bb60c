//! Functions, objects, properties and globals, side by side in one lent store of HEAP_WORDS words: how they are laid, added, found and read.
#![tactic(auto)]

ghost use Rattle.std.specs.Prelude.{◌≡◌, ◌+◌, ◌<◌, length};
ghost use Rattle.machine.specs.Act.{add_function, add_object, add_kind};
ghost use Rattle.heap.specs.Layout.{object_limit, heap_words};
ghost use Rattle.heap.specs.View.{Sized, Grows, Gives, Clears, kind_is, set_row};

pub mod held;
pub mod rows;

pub use held::Heap;
pub use rows::{find_global, find_property, global, property};
use value::{Space, Value};

// The limits of document 01, and where each store begins: a function has 2 words, an object 1, a property and a global 6.
pub const FUNCTION_LIMIT: usize = 1024;

pub const OBJECT_LIMIT: usize = 512;

pub const PROPERTY_LIMIT: usize = 1024;

pub const GLOBAL_LIMIT: usize = 128;

pub const OBJECTS_AT: usize = 2 * FUNCTION_LIMIT;

pub const PROPERTIES_AT: usize = OBJECTS_AT + OBJECT_LIMIT;

pub const GLOBALS_AT: usize = PROPERTIES_AT + 6 * PROPERTY_LIMIT;

pub const HEAP_WORDS: usize = GLOBALS_AT + 6 * GLOBAL_LIMIT;

// `NATIVE_CONSOLE_ID`
pub const NATIVE_CONSOLE_ID: u64 = 18446744073709551615;

// How many stand.
#[repr(C)]
#[derive(Clone, Copy)]
pub struct Sizes {
    pub functions: usize,
    pub objects: usize,
    pub properties: usize,
    pub globals: usize,
}

/// What an object is; its number is its word.
#[derive(Clone, Copy)]
pub enum ObjectType {
    Ordinary,
    Array,
}

/// A function: an image, and a template of it.
#[derive(Clone, Copy)]
pub struct Registered {
    pub image: u64,
    pub template: u64,
}

pub fn add_function(z: Sizes, heap: &mut [u64], image: u64, template: u64) -> Result<Sizes, Space>
    requires { Sized z heap.old }
    ensures { Grows (add_function image template) z heap.old result heap.new }
{
    let n = z.functions;
    if FUNCTION_LIMIT <= n {
        return Err(Space::Functions);
    }
    heap[2 * n] = image;
    heap[2 * n + 1] = template;
    Ok(Sizes {
        functions: n + 1,
        ..z
    })
}

// A new object, of which there is room.
pub fn add_kind(z: Sizes, heap: &mut [u64], kind: ObjectType) -> Sizes
    requires sized { Sized z heap.old }
    requires objects_lt_object_limit { z.objects < object_limit }
    ensures { Gives (add_kind (kind_is kind)) z heap.old result heap.new }
{
    let n = z.objects;
    heap[OBJECTS_AT + n] = kind as u64;
    Sizes {
        objects: n + 1,
        ..z
    }
}

pub fn add_object(z: Sizes, heap: &mut [u64]) -> Result<Sizes, Space>
    requires { Sized z heap.old }
    ensures { Grows add_object z heap.old result heap.new }
{
    if OBJECT_LIMIT <= z.objects {
        return Err(Space::Objects);
    }
    Ok(add_kind(z, heap, ObjectType::Ordinary))
}

// The row of a property or a global: its head, the place and size of its key or name in the text store, its value.
pub fn write_row(heap: &mut [u64], k: usize, head: u64, at: u64, size: u64, v: Value)
    requires { k + 5 < length heap.old }
    ensures { heap.new ≡ set_row heap.old k head at size v }
{
    heap[k] = head;
    heap[k + 1] = at;
    heap[k + 2] = size;
    value::write(heap, k + 3, v);
}

// What clear leaves: `console`, whose name is kept nowhere.
pub fn clear(heap: &mut [u64]) -> Sizes
    requires { length heap.old ≡ heap_words }
    ensures { Clears result heap.new }
{
    write_row(heap, GLOBALS_AT, 1, 0, 0, Value::Object(NATIVE_CONSOLE_ID));
    Sizes {
        functions: 0,
        objects: 0,
        properties: 0,
        globals: 1,
    }
}
