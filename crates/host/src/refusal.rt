//! Why a call is refused.
ghost use Rattle.std.specs.Prelude.{◌≡◌, Some};
ghost use Rattle.value.specs.declared.Stop.TheVariants.{Refused};
ghost use Rattle.host.specs.declared.refusal.Refusal.TheVariants.{Load, Stopped};
ghost use Rattle.host.specs.Refusals.{number_of, text_of};

use image::LoadError;
use std::error::Error;
use std::fmt;
use value::{Space, Stop};

/// The question that was answered no; a refused call alters nothing.
#[derive(Clone, Copy, Debug, PartialEq, Eq)]
pub enum Refusal {
    /// A store has another length than the listed one, or a count is above it.
    StoreSizes,
    /// A name or a text that the host gives has a byte above 127.
    NotAscii,
    /// A text handle is not inside the bytes in use.
    Handle,
    BufferTooShort,
    NoImage,
    /// The image has no such template, or it is the image's own chunk.
    NoTemplate,
    /// The image is no good, or there is no room for it.
    Load(LoadError),
    /// A store has no room. No act of a host call has an error of document 000; it would be told all the same.
    Stopped(Stop),
}

impl From<LoadError> for Refusal {
    ghost from_gives = { λ e r. r ≡ Load e };

    fn from(e: LoadError) -> Refusal {
        Refusal::Load(e)
    }
}

impl From<Stop> for Refusal {
    ghost from_gives = { λ s r. r ≡ Stopped s };

    fn from(s: Stop) -> Refusal {
        Refusal::Stopped(s)
    }
}

impl From<Space> for Refusal {
    ghost from_gives = { λ q r. r ≡ Stopped (Refused q) };

    fn from(q: Space) -> Refusal {
        Refusal::Stopped(Stop::Refused(q))
    }
}

// Document 01's number of the question.
impl From<Refusal> for u64 {
    ghost from_gives = { λ r n. n ≡ number_of r };

    fn from(r: Refusal) -> u64 {
        match r {
            Refusal::StoreSizes => 33,
            Refusal::NotAscii => 29,
            Refusal::Handle => 30,
            Refusal::BufferTooShort => 31,
            Refusal::NoImage => 10,
            Refusal::NoTemplate => 32,
            Refusal::Load(e) => u64::from(e),
            Refusal::Stopped(s) => u64::from(s),
        }
    }
}

impl fmt::Display for Refusal {
    ghost output = { λ r. Some (text_of r) };

    fn fmt<W: fmt::Write>(&self, f: &mut fmt::Formatter<W>) -> fmt::Result {
        match self {
            Refusal::StoreSizes => f.write_str("a store has another size than the listed one"),
            Refusal::NotAscii => f.write_str("a name or a text has a byte above 127"),
            Refusal::Handle => f.write_str("a text handle is not inside the bytes in use"),
            Refusal::BufferTooShort => f.write_str("the buffer is too short"),
            Refusal::NoImage => f.write_str("no such image is loaded"),
            Refusal::NoTemplate => f.write_str("the image has no such template"),
            Refusal::Load(e) => write!(f, "{e}"),
            Refusal::Stopped(s) => write!(f, "{s}"),
        }
    }
}

impl Error for Refusal {}
