//! Change 2 of document 02: an image written into a lent buffer, call by call. The host keeps the writer between the calls.
#![tactic(auto)]

ghost use Rattle.std.specs.Prelude.{◌≡◌, true, false, List, Some, ◌++◌, ℕ, ◌+◌, ◌≤◌, ◌<◌, length, MatchResult};
ghost use Rattle.machine.specs.Format as F;
ghost use Rattle.machine.specs.Writer as W;
ghost use Rattle.number.specs.Overwrite.{overwrite};
ghost use Rattle.writer.specs.declared.WriteError.TheVariants.{IllFormed, BufferTooShort};
ghost use Rattle.writer.specs.View.{stage_of, stage_by, stage_number, writer_of, takes_in, number_of, text_of, Does};

use std::error::Error;
use std::fmt;
use std::num::TryFromIntError;
use texts::copy;

/// Why a call is refused, by document 02's number; a refused call alters nothing.
#[derive(Clone, Copy, Debug, PartialEq, Eq)]
pub enum WriteError {
    /// The call comes out of its order, or a count or a length does not fit two bytes.
    IllFormed = 34,
    /// The buffer does not hold what the call writes. Asked last.
    BufferTooShort = 31,
}

impl From<WriteError> for u64 {
    ghost from_gives = { λ e n. n ≡ number_of e };

    fn from(e: WriteError) -> u64 {
        e as u64
    }
}

// Of a count that does not fit two bytes.
impl From<TryFromIntError> for WriteError {
    ghost from_gives = { λ _ e. e ≡ IllFormed };

    fn from(_e: TryFromIntError) -> WriteError {
        WriteError::IllFormed
    }
}

impl fmt::Display for WriteError {
    ghost output = { λ e. Some (text_of e) };

    fn fmt<W: fmt::Write>(&self, f: &mut fmt::Formatter<W>) -> fmt::Result {
        f.write_str(match self {
            WriteError::IllFormed => "a call out of order, or a count or length above 65,535",
            WriteError::BufferTooShort => "the buffer is too short",
        })
    }
}

impl Error for WriteError {}

/// How far an image is: before a begin; with no template; with a template open for constants and code; behind its code; finished.
#[derive(Clone, Copy)]
enum Stage {
    Unbegun = 0,
    Begun = 1,
    Opened = 2,
    Coded = 3,
    Finished = 4,
}

impl From<Stage> for u64 {
    ghost from_gives = { λ g n. n ≡ stage_number (stage_by g) };

    fn from(g: Stage) -> u64 {
        g as u64
    }
}

// The host may hand in any number.
impl From<u64> for Stage {
    ghost from_gives = { λ n g. stage_by g ≡ stage_of n };

    fn from(n: u64) -> Stage {
        match n {
            0 => Stage::Unbegun,
            1 => Stage::Begun,
            2 => Stage::Opened,
            3 => Stage::Coded,
            _ => Stage::Finished,
        }
    }
}

/// What the host keeps: the number of the stage, the bytes written, the templates, where the newest one starts, and its constants. A writer of zeros is one
/// before a begin.
#[repr(C)]
#[derive(Clone, Copy, Default)]
pub struct Writer {
    pub stage: u64,
    pub size: usize,
    pub templates: usize,
    pub at: usize,
    pub constants: usize,
}

// A count in two bytes.
fn put_word(buffer: &mut [u8], at: usize, n: u16)
    requires { at + 2 ≤ length buffer.old }
    ensures { buffer.new ≡ overwrite buffer.old at (F.word n) }
{
    let [high, low] = n.to_be_bytes();
    buffer[at] = high;
    buffer[at + 1] = low;
}

impl Writer {
    // Where k more bytes end, in a buffer of n.
    fn room(self, n: usize, k: usize) -> Result<usize, WriteError>
        ensures { MatchResult result (λ end. (end ≡ self.size + k) × (end ≤ n)) (λ e. (n < self.size + k) × (e ≡ BufferTooShort)) }
    {
        match self.size.checked_add(k) {
            Some(end) if end <= n => Ok(end),
            _ => Err(WriteError::BufferTooShort),
        }
    }

    // Begun and not finished?
    fn underway(self) -> Result<(), WriteError>
        ensures { MatchResult result (λ _. W.underway (stage_of self.stage) ≡ true) (λ e. (W.underway (stage_of self.stage) ≡ false) × (e ≡ IllFormed)) }
    {
        match Stage::from(self.stage) {
            Stage::Begun | Stage::Opened | Stage::Coded => Ok(()),
            Stage::Unbegun | Stage::Finished => Err(WriteError::IllFormed),
        }
    }

    // Is a template open, its eight bytes among those written?
    fn takes(self) -> Result<(), WriteError>
        ensures { MatchResult result (λ _. (self.at + 8 ≤ self.size) × (self.stage ≡ 2)) (λ e. (takes_in (writer_of self) ≡ false) × (e ≡ IllFormed)) }
    {
        match (Stage::from(self.stage), self.size.checked_sub(8)) {
            (Stage::Opened, Some(last)) if self.at <= last => Ok(()),
            _ => Err(WriteError::IllFormed),
        }
    }

    /// Starts an image, whatever was written before.
    pub fn begin(buffer: &mut [u8]) -> Result<Writer, WriteError>
        ensures { (w : Writer) → Does W.begin w buffer.old result buffer.new }
    {
        if buffer.len() < 2 {
            return Err(WriteError::BufferTooShort);
        }
        put_word(buffer, 0, 0);
        Ok(Writer {
            stage: Stage::Begun.into(),
            size: 2,
            ..Writer::default()
        })
    }

    /// Opens a template, with no constants and empty code. The counts are wider than their two bytes, so that one above 65,535 is refused.
    pub fn template(
        self,
        buffer: &mut [u8],
        parameters: u64,
        locals: u64,
    ) -> Result<Writer, WriteError>
        ensures { Does (W.template parameters locals) self buffer.old result buffer.new }
    {
        self.underway()?;
        let count = u16::try_from(self.templates.saturating_add(1))?;
        let parameters = u16::try_from(parameters)?;
        let locals = u16::try_from(locals)?;
        let size = self.room(buffer.len(), 8)?;
        let at = self.size;
        put_word(buffer, at, parameters);
        put_word(buffer, at + 2, locals);
        put_word(buffer, at + 4, 0);
        put_word(buffer, at + 6, 0);
        put_word(buffer, 0, count);
        Ok(Writer {
            stage: Stage::Opened.into(),
            size,
            templates: usize::from(count),
            at,
            constants: 0,
        })
    }

    // A constant of the open template, by its bytes: those of head and body. It goes before the code's count, which moves behind it.
    fn constant(self, buffer: &mut [u8], head: &[u8], body: &[u8]) -> Result<Writer, WriteError>
        ensures { (c : F.Constant) → W.small_constant c ≡ true → F.constant_bytes c ≡ head.now ++ body.now → Does (W.constant c) self buffer.old result buffer.new }
    {
        self.takes()?;
        let count = u16::try_from(self.constants.saturating_add(1))?;
        let size = self.room(buffer.len(), head.len() + body.len())?;
        let at = self.size - 2;
        copy(buffer, at, head);
        copy(buffer, at + head.len(), body);
        put_word(buffer, size - 2, 0);
        put_word(buffer, self.at + 4, count);
        Ok(Writer {
            size,
            constants: usize::from(count),
            ..self
        })
    }

    pub fn number(self, buffer: &mut [u8], bits: u64) -> Result<Writer, WriteError>
        ensures { Does (W.constant (F.number bits)) self buffer.old result buffer.new }
    {
        self.constant(buffer, &[0], &bits.to_be_bytes())
    }

    pub fn text(self, buffer: &mut [u8], bytes: &[u8]) -> Result<Writer, WriteError>
        ensures { Does (W.constant (F.text bytes.now)) self buffer.old result buffer.new }
    {
        let [high, low] = u16::try_from(bytes.len())?.to_be_bytes();
        self.constant(buffer, &[1, high, low], bytes)
    }

    pub fn boolean(self, buffer: &mut [u8], b: bool) -> Result<Writer, WriteError>
        ensures { Does (W.constant (F.boolean b)) self buffer.old result buffer.new }
    {
        self.constant(buffer, &[2, u8::from(b)], &[])
    }

    pub fn null(self, buffer: &mut [u8]) -> Result<Writer, WriteError>
        ensures { Does (W.constant F.null) self buffer.old result buffer.new }
    {
        self.constant(buffer, &[3], &[])
    }

    pub fn undefined(self, buffer: &mut [u8]) -> Result<Writer, WriteError>
        ensures { Does (W.constant F.undefined) self buffer.old result buffer.new }
    {
        self.constant(buffer, &[4], &[])
    }

    pub fn function(self, buffer: &mut [u8], template: u64) -> Result<Writer, WriteError>
        ensures { Does (W.constant (F.function template)) self buffer.old result buffer.new }
    {
        self.constant(buffer, &[5], &u16::try_from(template)?.to_be_bytes())
    }

    /// The open template's code, whole and once.
    pub fn code(self, buffer: &mut [u8], bytes: &[u8]) -> Result<Writer, WriteError>
        ensures { Does (W.code bytes.now) self buffer.old result buffer.new }
    {
        self.takes()?;
        let count = u16::try_from(bytes.len())?;
        let size = self.room(buffer.len(), bytes.len())?;
        put_word(buffer, self.size - 2, count);
        copy(buffer, self.size, bytes);
        Ok(Writer {
            stage: Stage::Coded.into(),
            size,
            ..self
        })
    }

    /// Ends the image, and writes nothing.
    pub fn finish(self) -> Result<Writer, WriteError>
        ensures { (b : List ℕ) → Does W.finish self b result b }
    {
        self.underway()?;
        Ok(Writer {
            stage: Stage::Finished.into(),
            ..self
        })
    }
}
