//! What stands on the heap, read.
ghost use Rattle.std.specs.Prelude.{◌≡◌, ℕ, List, length};
ghost use Rattle.std.proofs.Math.ListN.{get_elem?};
ghost use Rattle.machine.specs.State.{property_in};
ghost use Rattle.machine.specs.Instruction.{get_property};
ghost use Rattle.value.specs.Words.{value_of};
ghost use Rattle.heap.specs.View.{Sized, held_in, function_in, kind_in};
ghost use Rattle.heap.specs.Finds.{global_in, length_of, stores};

use crate::{OBJECTS_AT, ObjectType, Registered, Sizes, rows};
use number::JsNumber;
use std::marker::Model;
use texts::{Texts, equal_bytes};
use value::Value;

/// The functions, objects, properties and globals that stand, with the words that say what they are.
#[derive(Drop)]
pub struct Heap<'a> {
    sizes: Sizes,
    words: &'a [u64],
}

impl<'a> Model for Heap<'a> {
    ghost use Rattle.heap.specs.View.{Held, held_in, Sized};

    ghost Value = { Held };

    ghost view = { λ h. held_in h.sizes h.words.now };

    ghost invariant = { λ h. Sized h.sizes h.words.now };
}

// A property of a text with k bytes: its length, or Undefined.
fn text_property(k: usize, key: &[u8]) -> Value
    ensures { value_of result ≡ length_of k key.now }
{
    if equal_bytes(key, b"length") {
        return Value::Number(JsNumber::js_int(k as u64).bits);
    }
    Value::Undefined
}

impl<'a> Heap<'a> {
    pub fn new(sizes: Sizes, words: &'a [u64]) -> Heap<'a>
        requires { Sized sizes words.now }
        ensures { result ≡ held_in sizes words.now }
    {
        Heap { sizes, words }
    }

    pub fn function(&self, i: u64) -> Option<Registered>
        ensures { function_in result ≡ get_elem? self.now.functions i }
    {
        if self.sizes.functions as u64 <= i {
            return None;
        }
        let k = 2 * i as usize;
        Some(Registered {
            image: self.words[k],
            template: self.words[k + 1],
        })
    }

    pub fn object_type(&self, id: u64) -> Option<ObjectType>
        ensures { kind_in result ≡ get_elem? self.now.objects id }
    {
        if self.sizes.objects as u64 <= id {
            return None;
        }
        if self.words[OBJECTS_AT + id as usize] == 0 {
            return Some(ObjectType::Ordinary);
        }
        Some(ObjectType::Array)
    }

    /// The value of a property, or Undefined.
    pub fn property(&self, texts: &Texts, owner: u64, key: &[u8]) -> Value
        ensures { value_of result ≡ property_in texts.now self.now.properties owner key.now }
    {
        rows::property(texts.text(), self.words, self.sizes.properties, owner, key)
    }

    /// The value of a global, or Undefined.
    pub fn global(&self, texts: &Texts, name: &[u8]) -> Value
        ensures { value_of result ≡ global_in texts.now self.now.globals name.now }
    {
        rows::global(texts.text(), self.words, self.sizes.globals, name)
    }

    /// A property of any value: of a text its length, of a known object what it has. Of the code only the length matters.
    pub fn get_property(&self, texts: &Texts, v: Value, key: &[u8]) -> Value
        ensures bytes { value_of result ≡ get_property texts.now self.now.objects self.now.properties (value_of v) key.now }
        ensures lengths { (c : List ℕ) → length c ≡ length texts.now.code → value_of result ≡ get_property (stores c texts.now.text) self.now.objects self.now.properties (value_of v) key.now }
    {
        match v {
            Value::CodeText(at, size) => text_property(texts.code_text(at, size).len(), key),
            Value::MadeText(at, size) => text_property(texts.made_text(at, size).len(), key),
            Value::Object(id) if id < self.sizes.objects as u64 => {
                rows::property(texts.text(), self.words, self.sizes.properties, id, key)
            }
            _ => Value::Undefined,
        }
    }
}
