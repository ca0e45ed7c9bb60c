//! What a value is as a boolean and as a number, when two are equal, and what an array takes for a key: the methods of document 000's `JsValue`.
#![tactic(auto)]

ghost use Rattle.std.specs.Prelude.{◌≡◌, ◌-◌, ◌≤◌, length};
ghost use Rattle.machine.specs.Convert.{to_boolean, to_number, strict_eq, abstract_eq, loose_seen, see, digits_key, array_key, length_floor};
ghost use Rattle.value.specs.Words.{value_of};
ghost use Rattle.convert.specs.Truth.{Truth};
ghost use Rattle.convert.specs.Shows.{seen_of};
ghost use Rattle.convert.specs.Keys.{key_of};

use number::JsNumber;
use texts::Texts;
use value::Value;

// No byte of a text is read: its length says enough.
pub fn to_boolean(texts: &Texts, v: Value) -> bool
    ensures bytes { result ≡ to_boolean texts.now (value_of v) }
    ensures lengths { Truth (length texts.now.code) (length texts.now.text) (value_of v) result }
{
    match v {
        Value::Undefined | Value::Null => false,
        Value::Boolean(b) => b,
        Value::Number(x) => x != JsNumber::JS_ZERO.bits && x != JsNumber::JS_NAN.bits,
        Value::CodeText(at, size) => !texts.code_text(at, size).is_empty(),
        Value::MadeText(at, size) => !texts.made_text(at, size).is_empty(),
        Value::Object(_) | Value::Function(_) => true,
    }
}

pub fn to_number(texts: &Texts, v: Value) -> JsNumber
    ensures { result.bits ≡ to_number texts.now (value_of v) }
{
    match v {
        Value::Undefined => JsNumber::JS_NAN,
        Value::Null => JsNumber::JS_ZERO,
        Value::Boolean(true) => JsNumber::JS_ONE,
        Value::Boolean(false) => JsNumber::JS_ZERO,
        Value::Number(x) => JsNumber::raw(x),
        Value::CodeText(at, size) => JsNumber::parse_js_number(texts.code_text(at, size)),
        Value::MadeText(at, size) => JsNumber::parse_js_number(texts.made_text(at, size)),
        Value::Object(_) | Value::Function(_) => JsNumber::JS_NAN,
    }
}

/// What `===` and `==` see of a value.
#[derive(Clone, Copy, PartialEq)]
pub enum Shown<'a> {
    Undefined,
    Null,
    Boolean(bool),
    Number(u64),
    Text(&'a [u8]),
    Object(u64),
    Function(u64),
}

pub fn show<'a>(texts: &Texts<'a>, v: Value) -> Shown<'a>
    ensures { seen_of result ≡ see texts.now (value_of v) }
{
    match v {
        Value::Undefined => Shown::Undefined,
        Value::Null => Shown::Null,
        Value::Boolean(b) => Shown::Boolean(b),
        Value::Number(x) => Shown::Number(x),
        Value::CodeText(at, size) => Shown::Text(texts.code_text(at, size)),
        Value::MadeText(at, size) => Shown::Text(texts.made_text(at, size)),
        Value::Object(i) => Shown::Object(i),
        Value::Function(i) => Shown::Function(i),
    }
}

pub fn strict_eq(texts: &Texts, v: Value, u: Value) -> bool
    ensures { result ≡ strict_eq texts.now (value_of v) (value_of u) }
{
    show(texts, v) == show(texts, u)
}

// Where `===` says no: null with undefined, and a number with a text that reads as it.
pub fn loose_eq(texts: &Texts, v: Value, u: Value) -> bool
    ensures { result ≡ loose_seen (see texts.now (value_of v)) (see texts.now (value_of u)) }
{
    match (show(texts, v), show(texts, u)) {
        (Shown::Undefined, Shown::Null) | (Shown::Null, Shown::Undefined) => true,
        (Shown::Number(x), Shown::Text(t)) | (Shown::Text(t), Shown::Number(x)) => {
            JsNumber::parse_js_number(t).bits == x
        }
        _ => false,
    }
}

pub fn abstract_eq(texts: &Texts, v: Value, u: Value) -> bool
    ensures { result ≡ abstract_eq texts.now (value_of v) (value_of u) }
{
    strict_eq(texts, v, u) || loose_eq(texts, v, u)
}

pub fn digits_key(s: &[u8]) -> Option<u64>
    ensures { key_of result ≡ digits_key s.now }
{
    if s.is_empty() {
        return None;
    }
    let mut worth: u64 = 0;
    for b in s {
        if !b.is_ascii_digit() {
            return None;
        }
        worth = worth.checked_mul(10)?.checked_add(u64::from(*b - b'0'))?;
    }
    Some(worth)
}

pub fn array_key(s: &[u8]) -> Option<u64>
    ensures { key_of result ≡ array_key s.now }
{
    match s {
        [b'+', digits @ ..] => digits_key(digits),
        _ => digits_key(s),
    }
}

/// What an array's `length` is worth.
pub fn length_floor(v: Value) -> u64
    ensures { result ≡ length_floor (value_of v) }
{
    match v {
        Value::Number(x) => JsNumber::raw(x).js_to_int(),
        _ => 0,
    }
}
