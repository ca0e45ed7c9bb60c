//! The text of a value: a text has its place, a number is laid out, and any other is a word. So each is measured with nothing written, and written straight to
//! where it is wanted. A key that is only looked up goes into a small buffer that the caller has.
ghost use Rattle.std.specs.Prelude.{◌≡◌, ◌++◌, ◌+◌, ◌≤◌, length};
ghost use Rattle.machine.specs.Convert.{to_js_string, js_typeof};
ghost use Rattle.machine.specs.NumberText.{longest_text};
ghost use Rattle.number.specs.Layout.{Wrote};
ghost use Rattle.value.specs.Words.{value_of};
ghost use Rattle.texts.specs.Sources.{InUse, stores_of};
ghost use Rattle.texts.specs.Overwrite.{overwrite};
ghost use Rattle.texts.specs.Spells.{laid_out, spelling_bytes, Says, Sized, Spells};
ghost use Rattle.texts.specs.Keeps.{text_limit, Keeps};

use crate::{Source, TEXT_LIMIT, Texts, append, copy};
use number::JsNumber;
use number::format::{LONGEST_TEXT, Layout};
use value::Value;

/// The text of a value, before it is written anywhere.
#[derive(Clone, Copy)]
pub enum Spelling {
    Code(u64, u64),
    Text(u64, u64),
    Number(Layout),
    Word(&'static [u8]),
}

// Answers the place behind what it wrote.
pub(crate) fn put(dest: &mut [u8], at: usize, bytes: &[u8]) -> usize
    requires { at + length bytes.now ≤ length dest.old }
    ensures { Wrote bytes.now dest.old at dest.new result }
{
    copy(dest, at, bytes);
    at + bytes.len()
}

impl Spelling {
    pub fn of(v: Value) -> Spelling
        ensures { Says (λ m. to_js_string m (value_of v)) result }
    {
        match v {
            Value::Undefined => Spelling::Word(b"undefined"),
            Value::Null => Spelling::Word(b"null"),
            Value::Boolean(true) => Spelling::Word(b"true"),
            Value::Boolean(false) => Spelling::Word(b"false"),
            Value::Number(n) => Spelling::Number(JsNumber::raw(n).layout()),
            Value::CodeText(at, size) => Spelling::Code(at, size),
            Value::MadeText(at, size) => Spelling::Text(at, size),
            Value::Object(_) => Spelling::Word(b"[object Object]"),
            Value::Function(_) => Spelling::Word(b"function"),
        }
    }

    /// How many bytes the text has. Only the lengths of code and text matter.
    pub fn size(self, texts: &Texts) -> usize
        requires { length (laid_out self) ≤ longest_text }
        ensures bytes { result ≡ length (spelling_bytes texts.now self) }
        ensures lengths { Sized (length texts.now.code) (length texts.now.text) self result }
    {
        match self {
            Spelling::Code(at, size) => texts.code_text(at, size).len(),
            Spelling::Text(at, size) => texts.made_text(at, size).len(),
            Spelling::Number(l) => l.size(),
            Spelling::Word(w) => w.len(),
        }
    }

    /// The text written at a place; answers the place behind it.
    pub fn write(self, texts: &Texts, dest: &mut [u8], to: usize) -> usize
        requires { to + length (spelling_bytes texts.now self) ≤ length dest.old }
        ensures { Wrote (spelling_bytes texts.now self) dest.old to dest.new result }
    {
        match self {
            Spelling::Code(at, size) => put(dest, to, texts.code_text(at, size)),
            Spelling::Text(at, size) => put(dest, to, texts.made_text(at, size)),
            Spelling::Number(l) => l.write(dest, to),
            Spelling::Word(w) => put(dest, to, w),
        }
    }

    // The same at place e of the text store, whose own bytes below m it may be.
    pub(crate) fn append(self, code: &[u8], n: usize, text: &mut [u8], m: usize, e: usize)
        requires in_use { InUse code.now n text.old m }
        requires m_le_e { m ≤ e }
        requires s_in_bounds { e + length (spelling_bytes (stores_of code.now n text.old m) self) ≤ length text.old }
        ensures { text.new ≡ overwrite text.old e (spelling_bytes (stores_of code.now n text.old m) self) }
    {
        match self {
            Spelling::Code(at, size) => append(code, n, text, m, &[], Source::Code(at, size), e),
            Spelling::Text(at, size) => append(code, n, text, m, &[], Source::Text(at, size), e),
            Spelling::Number(l) => {
                l.write(text, e);
            }
            Spelling::Word(w) => copy(text, e, w),
        }
    }
}

pub fn type_of(v: Value) -> &'static [u8]
    ensures { result.now ≡ js_typeof (value_of v) }
{
    match v {
        Value::Undefined => b"undefined",
        Value::Boolean(_) => b"boolean",
        Value::Number(_) => b"number",
        Value::CodeText(..) | Value::MadeText(..) => b"string",
        Value::Null | Value::Object(_) => b"object",
        Value::Function(_) => b"function",
    }
}

// The buffer's length is asked, since nothing else tells it of an array behind a `&mut`.
pub fn to_js_string(v: Value, buffer: &mut [u8; LONGEST_TEXT]) -> Source
    requires { length buffer.old ≡ longest_text }
    ensures { Spells (λ m. to_js_string m (value_of v)) result buffer.new }
{
    match Spelling::of(v) {
        Spelling::Code(at, size) => Source::Code(at, size),
        Spelling::Text(at, size) => Source::Text(at, size),
        Spelling::Number(l) => Source::Buffer(l.write(buffer, 0) as u64),
        Spelling::Word(w) => Source::Buffer(put(buffer, 0, w) as u64),
    }
}

/// The texts of two values kept as one.
pub fn keep_joined(
    code: &[u8],
    n: usize,
    text: &mut [u8],
    m: usize,
    v: Value,
    u: Value,
) -> Option<usize>
    requires n_in_bounds { n ≤ length code.now }
    requires m_le_text_limit { (m ≤ text_limit) × (length text.old ≡ text_limit) }
    ensures { Keeps (to_js_string (stores_of code.now n text.old m) (value_of v) ++ to_js_string (stores_of code.now n text.old m) (value_of u)) m text.old result text.new }
{
    let texts = Texts::new(code, n, text, m);
    let a = Spelling::of(v);
    let b = Spelling::of(u);
    let x = a.size(&texts);
    let y = b.size(&texts);
    if TEXT_LIMIT - m < x {
        return None;
    }
    let e = m + x;
    if TEXT_LIMIT - e < y {
        return None;
    }
    a.append(code, n, text, m, m);
    b.append(code, n, text, m, e);
    Some(e + y)
}

/// The word for a value's type kept.
pub fn keep_typeof(text: &mut [u8], m: usize, v: Value) -> Option<usize>
    requires { (m ≤ text_limit) × (length text.old ≡ text_limit) }
    ensures { Keeps (js_typeof (value_of v)) m text.old result text.new }
{
    let word = type_of(v);
    if TEXT_LIMIT - m < word.len() {
        return None;
    }
    copy(text, m, word);
    Some(m + word.len())
}
