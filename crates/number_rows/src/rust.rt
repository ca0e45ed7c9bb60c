//! The Rust's answers, a row each: an operation, the answer in hexadecimal, how many bytes follow, and these, filled up with points.
ghost use Rattle.std.specs.Prelude.{◌<◌};

use number::JsNumber;
use number::format::LONGEST_TEXT;
use number::parse::{Reading, Saved};

// Bytes of a row, with its line end.
pub const ROW: usize = 87;

// The most bytes of a row's text, and where it starts in its array.
const MOST: usize = 32;

const START: usize = 4;

fn gives(op: u8, a: JsNumber, b: JsNumber) -> Option<u64> {
    let number = match op {
        b'*' => a * b,
        b'/' => a / b,
        b'%' => a % b,
        b'+' => a + b,
        b'-' => a - b,
        b'n' => -a,
        b'&' => a & b,
        b'|' => a | b,
        b'^' => a ^ b,
        b'<' => a << b,
        b'>' => a >> b,
        b'l' => return Some(u64::from(a.less(b))),
        b'e' => return Some(u64::from(a.less_eq(b))),
        _ => return None,
    };
    Some(number.bits)
}

pub fn formats(number: JsNumber, text: &[u8]) -> bool {
    let mut out = [0u8; LONGEST_TEXT];
    let n = number.format_js_number(&mut out);
    &out[..n] == text
}

// A text that is cut in two; of what comes before, three numbers are kept.
fn read_cut(front: &[u8], rest: &[u8]) -> JsNumber {
    let saved = Saved::from(Reading::start().resume(front));
    Reading::from(saved).resume(rest).finish()
}

fn reads_in_parts(text: &[u8], number: JsNumber) -> bool {
    let bytewise = text.chunks(1).fold(Reading::start(), |r, b| r.resume(b));
    bytewise.finish() == number
        && (0..=text.len()).all(|at| {
            let (front, rest) = text.split_at(at);
            read_cut(front, rest) == number
        })
}

// What is no digit, a capital too, counts as 0.
fn nibble(c: u8) -> u8
    ensures { result < 16 }
{
    match c {
        b'0'..=b'9' => c - b'0',
        b'a'..=b'f' => c - b'a' + 10,
        _ => 0,
    }
}

fn byte(high: u8, low: u8) -> u8 {
    nibble(high) * 16 + nibble(low)
}

fn bits(digits: &[u8]) -> u64 {
    digits
        .iter()
        .fold(0, |n, c| (n << 4) | u64::from(nibble(*c)))
}

// The text is a part of a longer one, whose other bytes are digits: who reads or writes too far meets them.
fn text_agrees(op: u8, number: JsNumber, pairs: &[[u8; 2]], count: usize) -> bool {
    if MOST < count {
        return false;
    }
    let mut all = [b'7'; 40];
    let places = all[START..START + count].iter_mut();
    for (place, [high, low]) in places.zip(pairs) {
        *place = byte(*high, *low);
    }
    let text = &all[START..START + count];
    if op == b'f' {
        return formats(number, text);
    }
    JsNumber::parse_js_number(text) == number && reads_in_parts(text, number)
}

/// Only what the operation needs is looked at: not what parts the fields, ends the row or fills it up.
pub fn agrees(row: &[u8; ROW]) -> bool {
    let op = row[0];
    let answer = bits(&row[2..18]);
    let digits = &row[22..86];
    if op == b'p' || op == b'f' {
        let count = usize::from(byte(row[19], row[20]));
        let (pairs, _) = digits.as_chunks::<2>();
        return text_agrees(op, JsNumber::raw(answer), pairs, count);
    }
    let a = JsNumber::raw(bits(&digits[..16]));
    let b = JsNumber::raw(bits(&digits[16..32]));
    gives(op, a, b) == Some(answer)
}
