//! Text to number in one pass: blanks, an optional `-`, decimal digits, blanks. A text that comes in parts is read part by part, and no byte of it is kept.
ghost use Rattle.std.specs.Prelude.{◌≡◌, ◌+◌, ◌*◌};
ghost use Rattle.machine.specs.Number as N;
ghost use Rattle.machine.specs.Reading as R;
ghost use Rattle.number.specs.Parse.{reading_of, saved_of};

use crate::JsNumber;

pub fn is_blank(b: u8) -> bool
    ensures { result ≡ N.is_blank b }
{
    matches!(b, b' ' | 9..=13)
}

// n * 10 + d, wrapping.
pub(crate) fn with_digit(n: u64, d: u64) -> u64
    ensures { result ≡ N.wrap (n * 10 + d) }
{
    n.wrapping_mul(10).wrapping_add(d)
}

// What stands behind the blanks in front.
fn after_blanks(s: &[u8]) -> &[u8]
    ensures { result.now ≡ N.cut_front s.now }
{
    let blanks = s.iter().take_while(|b| is_blank(**b)).count();
    &s[blanks..]
}

/// A number text that was read up to some byte.
#[derive(Clone, Copy, Debug, PartialEq, Eq)]
pub enum Reading {
    /// Blanks only.
    Leading,
    /// Whether a `-` came, and the worth of the digits behind it.
    Digits(bool, u64),
    /// The same, with a blank behind them.
    Trailing(bool, u64),
    /// No number, whatever follows.
    Invalid,
}

/// A reading as three numbers, for a host that keeps it in its own form: 0 to 3 for the variant, 1 for a `-`, the worth of the digits.
#[derive(Clone, Copy, Debug, PartialEq, Eq)]
pub struct Saved {
    pub stage: u64,
    pub minus: u64,
    pub worth: u64,
}

// The next three read the rest of the bytes, each from one stage on, so that a byte is tested for what may stand there only.
fn trailing(s: &[u8], minus: bool, n: u64) -> Reading
    ensures { reading_of result ≡ R.resume (R.trailing minus n) s.now }
{
    if s.iter().all(|b| is_blank(*b)) {
        Reading::Trailing(minus, n)
    } else {
        Reading::Invalid
    }
}

#[tactic(auto, using(crate::specs::Parse::underway_other))]
fn digits(s: &[u8], minus: bool, n: u64) -> Reading
    ensures { reading_of result ≡ R.resume (R.digits minus n) s.now }
{
    let mut worth = n;
    for (k, b) in s.iter().enumerate() {
        if b.is_ascii_digit() {
            worth = with_digit(worth, u64::from(*b - b'0'));
        } else if is_blank(*b) {
            return trailing(&s[k + 1..], minus, worth);
        } else {
            return Reading::Invalid;
        }
    }
    Reading::Digits(minus, worth)
}

fn leading(s: &[u8]) -> Reading
    ensures { reading_of result ≡ R.resume R.leading s.now }
{
    match after_blanks(s) {
        [] => Reading::Leading,
        [b'-', rest @ ..] => digits(rest, true, 0),
        rest => digits(rest, false, 0),
    }
}

fn signed_whole(minus: bool, n: u64) -> JsNumber
    ensures { result.bits ≡ R.signed_whole minus n }
{
    let number = JsNumber::js_int(n);
    if minus { -number } else { number }
}

impl Reading {
    pub fn start() -> Reading
        ensures { reading_of result ≡ R.start }
    {
        Reading::Leading
    }

    /// Reads more bytes of the text, as many as have come.
    #[tactic(auto, using(machine::proofs::Reading::invalid_stays))]
    pub fn resume(self, s: &[u8]) -> Reading
        ensures { reading_of result ≡ R.resume (reading_of self) s.now }
    {
        match self {
            Reading::Leading => leading(s),
            Reading::Digits(minus, n) => digits(s, minus, n),
            Reading::Trailing(minus, n) => trailing(s, minus, n),
            Reading::Invalid => Reading::Invalid,
        }
    }

    /// The number of the text, if it ends here.
    pub fn finish(self) -> JsNumber
        ensures { result.bits ≡ R.finish (reading_of self) }
    {
        match self {
            Reading::Leading => JsNumber::JS_ZERO,
            Reading::Digits(minus, n) => signed_whole(minus, n),
            Reading::Trailing(minus, n) => signed_whole(minus, n),
            Reading::Invalid => JsNumber::JS_NAN,
        }
    }
}

impl From<Reading> for Saved {
    ghost from_gives = { λ r p. saved_of p ≡ R.save (reading_of r) };

    fn from(reading: Reading) -> Saved {
        let (stage, minus, worth) = match reading {
            Reading::Leading => (0, false, 0),
            Reading::Digits(minus, n) => (1, minus, n),
            Reading::Trailing(minus, n) => (2, minus, n),
            Reading::Invalid => (3, false, 0),
        };
        Saved {
            stage,
            minus: u64::from(minus),
            worth,
        }
    }
}

/// The reading that three numbers stand for. A stage above 2 is taken for 3, and another `minus` than 1 for 0.
impl From<Saved> for Reading {
    ghost from_gives = { λ p r. reading_of r ≡ R.restore (saved_of p) };

    fn from(saved: Saved) -> Reading {
        let minus = saved.minus == 1;
        match saved.stage {
            0 => Reading::Leading,
            1 => Reading::Digits(minus, saved.worth),
            2 => Reading::Trailing(minus, saved.worth),
            _ => Reading::Invalid,
        }
    }
}

impl JsNumber {
    /// The number that a text reads as; a part of a text is lent as `&s[a..b]`.
    #[tactic(auto, using(machine::proofs::Reading::one_pass))]
    pub fn parse_js_number(s: &[u8]) -> JsNumber
        ensures { result.bits ≡ N.parse_js_number s.now }
    {
        Reading::start().resume(s).finish()
    }
}
