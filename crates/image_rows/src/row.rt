//! A row of the list, as bytes.
ghost use Rattle.std.specs.Prelude.{◌<◌, ◌≤◌, length, IfSome};

use arrayvec::ArrayVec;

/// The bytes of a row. Those above 70,000 are dropped.
pub type RowBytes = ArrayVec<u8, 70000>;

/// The store that a load is lent an entry short.
#[derive(Clone, Copy, PartialEq, Eq)]
pub enum Store {
    Code,
    Places,
    Rows,
    Starts,
}

/// A row, with its image where the bytes were read to.
#[derive(Clone, Copy)]
pub enum Row<'a> {
    /// The answer that is wanted, and the image.
    LoadFresh(u64, &'a [u8]),
    Load(u64, &'a [u8]),
    Short(Option<Store>),
    /// An image and a template of it, and five of the template's numbers.
    Template([u64; 2], [u64; 5]),
    /// An image, a template and a constant of it, and the constant's kind and value.
    Constant([u64; 3], [u64; 3]),
}

#[derive(Clone, Copy)]
enum Token {
    Byte(u8),
    // The byte before it, so often in all.
    Times(usize),
    // Nothing that counts: a blank, or half a byte.
    Between,
}

// Small letters are no digits.
fn digit(b: u8) -> Option<u8>
    ensures { IfSome result (λ d. d < 16) }
{
    match b {
        b'0'..=b'9' => Some(b - b'0'),
        b'A'..=b'F' => Some(b - b'A' + 10),
        _ => None,
    }
}

// The number at the front of a text, 0 where no digit is there, and what stands behind it.
fn decimal(text: &[u8]) -> (usize, &[u8])
    ensures { length result.1.now ≤ length text.now }
{
    let mut n = 0usize;
    for (i, b) in text.iter().enumerate() {
        let Some(d @ 0..=9) = digit(*b) else {
            return (n, &text[i..]);
        };
        n = n.saturating_mul(10).saturating_add(usize::from(d));
    }
    (n, &[])
}

// The byte whose two digits are at the front of a text, and what stands behind them.
fn byte(text: &[u8]) -> Option<(u8, &[u8])>
    ensures { IfSome result (λ r. length r.1.now < length text.now) }
{
    let [high, low, rest @ ..] = text else {
        return None;
    };
    Some((digit(*high)? * 16 + digit(*low)?, rest))
}

// The token at the front of a text, and what stands behind it.
fn first_token(text: &[u8]) -> Option<(Token, &[u8])>
    ensures { IfSome result (λ r. length r.1.now < length text.now) }
{
    if let Some((b, rest)) = byte(text) {
        return Some((Token::Byte(b), rest));
    }
    let (first, rest) = text.split_first()?;
    if *first != b'*' {
        return Some((Token::Between, rest));
    }
    let (times, rest) = decimal(rest);
    Some((Token::Times(times), rest))
}

// The last byte, until it stands there so often or no more fit.
fn repeat(bytes: &mut RowBytes, times: usize) {
    let Some(last) = bytes.as_slice().last().copied() else {
        return;
    };
    for _ in 1..times {
        if bytes.try_push(last).is_err() {
            return;
        }
    }
}

/// Reads the bytes of a row's text in place of those of the row before.
pub fn read(text: &[u8], bytes: &mut RowBytes) {
    bytes.clear();
    let mut rest = text;
    while let Some((found, behind)) = first_token(rest) {
        match found {
            Token::Byte(b) => {
                let _fits = bytes.try_push(b);
            }
            Token::Times(n) => repeat(bytes, n),
            Token::Between => {}
        }
        rest = behind;
    }
}

// What a row does not have is 0.
fn byte_at(bytes: &[u8], i: usize) -> u8 {
    bytes.get(i).copied().unwrap_or(0)
}

fn word_at(bytes: &[u8], i: usize) -> u64
    requires { i < 100 }
    ensures { result < 65536 }
{
    u64::from(u16::from_be_bytes([byte_at(bytes, i), byte_at(bytes, i + 1)]))
}

fn quad_at(bytes: &[u8], i: usize) -> u64
    requires { i < 90 }
    ensures { result < 4294967296 }
{
    word_at(bytes, i) * 65536 + word_at(bytes, i + 2)
}

fn numbered_store(n: u8) -> Option<Store> {
    match n {
        1 => Some(Store::Code),
        2 => Some(Store::Places),
        3 => Some(Store::Rows),
        4 => Some(Store::Starts),
        _ => None,
    }
}

// An answer's two digits, which are decimal.
fn answer(b: u8) -> u64 {
    u64::from(b / 16) * 10 + u64::from(b % 16)
}

impl<'a> Row<'a> {
    /// The row that a line's first byte and the bytes behind it make. Another first byte makes none, nor does a load without an answer.
    pub fn new(kind: u8, bytes: &'a [u8]) -> Option<Row<'a>> {
        match kind {
            b'L' => {
                let (want, image) = bytes.split_first()?;
                Some(Row::LoadFresh(answer(*want), image))
            }
            b'K' => {
                let (want, image) = bytes.split_first()?;
                Some(Row::Load(answer(*want), image))
            }
            b'S' => Some(Row::Short(numbered_store(byte_at(bytes, 0)))),
            b'T' => Some(Row::Template(
                [word_at(bytes, 0), word_at(bytes, 2)],
                [
                    word_at(bytes, 4),
                    word_at(bytes, 6),
                    word_at(bytes, 8),
                    word_at(bytes, 10),
                    word_at(bytes, 12),
                ],
            )),
            b'C' => Some(Row::Constant(
                [word_at(bytes, 0), word_at(bytes, 2), word_at(bytes, 4)],
                [word_at(bytes, 6), quad_at(bytes, 8), quad_at(bytes, 12)],
            )),
            _ => None,
        }
    }
}
