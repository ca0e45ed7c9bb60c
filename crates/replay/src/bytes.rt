//! Numbers, texts and values as the list has them. A byte past the end reads as 256, which no byte is: what stands there agrees with nothing that the engine
//! holds, but for the numbers of two bytes and more, whose bytes are joined by `|`.
use value::Value;

// A program, and the place up to which it is read; that may lie past its end.
#[derive(Clone, Copy)]
pub struct List<'a> {
    program: &'a [u8],
    place: usize,
}

// A value of the list.
#[derive(Clone, Copy)]
pub enum Listed<'a> {
    Undefined,
    Null,
    Boolean(u64),
    Number(u64),
    Text(&'a [u8]),
    Object(u64),
    Function(u64),
}

impl<'a> List<'a> {
    pub fn new(program: &'a [u8]) -> List<'a> {
        List { program, place: 0 }
    }

    pub fn is_done(&self) -> bool {
        self.program.len() <= self.place
    }

    // Nothing is left, and nothing was missing.
    pub fn is_whole(&self) -> bool {
        self.place == self.program.len()
    }

    pub fn byte(&mut self) -> u64 {
        let byte = match self.program.get(self.place) {
            Some(b) => u64::from(*b),
            None => 256,
        };
        self.place = self.place.saturating_add(1);
        byte
    }

    pub fn word(&mut self) -> u64 {
        let high = self.byte();
        (high << 8) | self.byte()
    }

    pub fn triple(&mut self) -> u64 {
        let high = self.byte();
        (high << 16) | self.word()
    }

    pub fn quad(&mut self) -> u64 {
        let high = self.word();
        (high << 16) | self.word()
    }

    fn eight(&mut self) -> u64 {
        let high = self.quad();
        (high << 32) | self.quad()
    }

    // None where a byte of it is missing.
    pub fn text(&mut self) -> Option<&'a [u8]> {
        let size = self.word() as usize;
        let (text, _) = self.program.get(self.place..)?.split_at_checked(size)?;
        self.place = self.place.saturating_add(size);
        Some(text)
    }

    pub fn value(&mut self) -> Option<Listed<'a>> {
        Some(match self.byte() {
            0 => Listed::Undefined,
            1 => Listed::Null,
            2 => Listed::Boolean(self.byte()),
            3 => Listed::Number(self.eight()),
            4 => Listed::Text(self.text()?),
            5 => Listed::Object(self.eight()),
            6 => Listed::Function(self.eight()),
            _ => return None,
        })
    }
}

// `size` bytes of a store from place `at` on are these.
pub fn is_text(store: &[u8], at: u64, size: u64, text: &[u8]) -> bool {
    let Some(rest) = store.get(at as usize..) else {
        return false;
    };
    match rest.get(..size as usize) {
        Some(part) => part == text,
        None => false,
    }
}

// A value of the engine is the list's.
pub fn agrees(code: &[u8], text: &[u8], v: Value, e: Listed<'_>) -> bool {
    match (v, e) {
        (Value::Undefined, Listed::Undefined) => true,
        (Value::Null, Listed::Null) => true,
        (Value::Boolean(b), Listed::Boolean(n)) => u64::from(b) == n,
        (Value::Number(a), Listed::Number(b)) => a == b,
        (Value::CodeText(at, size), Listed::Text(t)) => is_text(code, at, size, t),
        (Value::MadeText(at, size), Listed::Text(t)) => is_text(text, at, size, t),
        (Value::Object(a), Listed::Object(b)) => a == b,
        (Value::Function(a), Listed::Function(b)) => a == b,
        _ => false,
    }
}
