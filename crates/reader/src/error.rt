//! Which question about an image was answered no.
ghost use Rattle.std.specs.Prelude.{◌≡◌, Some};
ghost use Rattle.reader.specs.Errors.{question, text_of};

use std::error::Error;
use std::fmt;

// The numbers are those of the questions.
#[derive(Clone, Copy, Debug, PartialEq, Eq)]
pub enum ImageError {
    UnexpectedEnd = 1,
    TemplateCount,
    ConstantKind,
    BooleanValue,
    TextByte,
    FunctionIndex,
    TrailingBytes,
}

impl From<ImageError> for u64 {
    ghost from_gives = { λ e n. n ≡ question e };

    fn from(e: ImageError) -> u64 {
        e as u64
    }
}

impl fmt::Display for ImageError {
    ghost output = { λ e. Some (text_of e) };

    fn fmt<W: fmt::Write>(&self, f: &mut fmt::Formatter<W>) -> fmt::Result {
        f.write_str(match self {
            ImageError::UnexpectedEnd => "the image ends too soon",
            ImageError::TemplateCount => "an image has 1 to 256 templates",
            ImageError::ConstantKind => "a constant is of an unknown kind",
            ImageError::BooleanValue => "a boolean is neither 0 nor 1",
            ImageError::TextByte => "a text has a byte above 127",
            ImageError::FunctionIndex => "a function is not a later template",
            ImageError::TrailingBytes => "bytes are left over",
        })
    }
}

impl Error for ImageError {}
