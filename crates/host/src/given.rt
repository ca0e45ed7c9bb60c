//! What the host gives: a value, or a text as bytes.
ghost use Rattle.std.specs.Prelude.{◌≡◌};
ghost use Rattle.machine.specs.Act.{plain, as_bytes};
ghost use Rattle.machine.specs.Host as Host;
ghost use Rattle.value.specs.Words.{decode_of};
ghost use Rattle.host.specs.declared.refusal.Refusal.TheVariants.{Handle, NotAscii};
ghost use Rattle.host.specs.Givens.{given_of};
ghost use Rattle.host.specs.Refusals.{Asks};

use crate::{Refusal, questions};
use texts::Texts;
use value::{Value, Words};

#[derive(Clone, Copy, Debug)]
pub enum Given<'a> {
    Plain(Value),
    Bytes(&'a [u8]),
}

impl From<Words> for Given<'_> {
    ghost from_gives = { λ w g. given_of g ≡ plain (decode_of w.kind w.first w.second) };

    fn from(w: Words) -> Self {
        Given::Plain(Value::from(w))
    }
}

impl<'a> From<&'a [u8]> for Given<'a> {
    ghost from_gives = { λ s g. given_of g ≡ as_bytes s.now };

    fn from(s: &'a [u8]) -> Given<'a> {
        Given::Bytes(s)
    }
}

impl Given<'_> {
    /// Question 29.
    pub fn ascii(self) -> Result<(), Refusal>
        ensures { Asks result (Host.bytes_fine (given_of self.entry)) NotAscii }
    {
        match self {
            Given::Plain(_) => Ok(()),
            Given::Bytes(bytes) => questions::ascii(bytes),
        }
    }

    /// Question 30.
    pub fn handle(self, texts: &Texts) -> Result<(), Refusal>
        ensures { Asks result (Host.given_fine texts.now (given_of self.entry)) Handle }
    {
        match self {
            Given::Plain(v) => questions::handle(texts, v),
            Given::Bytes(_) => Ok(()),
        }
    }
}
