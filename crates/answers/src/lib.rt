//! What C is told of the engine's and the image writer's answers: one flat struct a shape, and values as three words.
#![tactic(auto)]

ghost use Rattle.std.specs.Prelude.{◌≡◌};
ghost use Rattle.machine.specs.Host as Host;
ghost use Rattle.run.specs.Runs.{result_of};
ghost use Rattle.host.specs.Calls.{answer_of_changed, counts_of_changed, answer_of_read, answer_of_run, counts_of_run};
ghost use Rattle.answers.specs.Flat.{told, told_value, told_run, flat, flat_text, opcode_of};
ghost use Rattle.answers.specs.Written.{told_write};

use heapops::Counts;
use host::Refusal;
use run::Ran;
use value::{JsVmError, Stop, Value, Words};
use writer::{WriteError, Writer};

// A call's number, 0 where it was accepted; an image's number or the bytes written; and what is in use then.
#[repr(C)]
#[derive(Clone, Copy)]
pub struct Answer {
    pub number: u64,
    pub amount: usize,
    pub counts: Counts,
}

// A value, where the number is 0.
#[repr(C)]
#[derive(Clone, Copy)]
pub struct ValueAnswer {
    pub number: u64,
    pub value: Words,
}

// Of a run that started (1) the number is how it ended, else (0) the refused call's.
#[repr(C)]
#[derive(Clone, Copy)]
pub struct RunTold {
    pub number: u64,
    pub started: u64,
    pub steps: usize,
    pub opcode: u64,
    pub value: Words,
    pub counts: Counts,
}

// Of a call of the image writer: its number, 0 where it was accepted, and the writer as it stands then.
#[repr(C)]
#[derive(Clone, Copy)]
pub struct WriteTold {
    pub number: u64,
    pub writer: Writer,
}

// Of a call that answers an amount with the counts: an image's number, a function's, or the bytes that were drained.
pub fn answered(counts: Counts, x: Result<(usize, Counts), Refusal>) -> Answer
    ensures { result ≡ flat counts x }
{
    match x {
        Ok((amount, kept)) => Answer {
            number: 0,
            amount,
            counts: kept,
        },
        Err(refusal) => Answer {
            number: u64::from(refusal),
            amount: 0,
            counts,
        },
    }
}

// Of one that answers the counts alone.
pub fn changed(counts: Counts, x: Result<Counts, Refusal>) -> Answer
    ensures { result ≡ told (answer_of_changed x) (counts_of_changed counts x) }
{
    answered(counts, x.map(|c| (0, c)))
}

// Of one that changes no count, and answers the bytes that it wrote.
pub fn wrote(counts: Counts, x: Result<usize, Refusal>) -> Answer
    ensures { result ≡ flat_text counts x }
{
    match x {
        Ok(n) => answered(counts, Ok((n, counts))),
        Err(e) => answered(counts, Err(e)),
    }
}

impl From<Result<Value, Refusal>> for ValueAnswer {
    ghost from_gives = { λ x r. r ≡ told_value (answer_of_read x) };

    fn from(x: Result<Value, Refusal>) -> ValueAnswer {
        match x {
            Ok(v) => ValueAnswer {
                number: 0,
                value: Words::from(v),
            },
            Err(e) => ValueAnswer {
                number: u64::from(e),
                value: Words::from(Value::Undefined),
            },
        }
    }
}

pub fn ran(counts: Counts, x: Result<Ran, Refusal>) -> RunTold
    ensures { result ≡ told_run (answer_of_run x) (counts_of_run counts x) }
{
    match x {
        Ok(r) => started(r),
        Err(e) => RunTold {
            number: u64::from(e),
            started: 0,
            steps: 0,
            opcode: 0,
            value: Words::from(Value::Undefined),
            counts,
        },
    }
}

fn started(r: Ran) -> RunTold
    ensures { result ≡ told_run (Host.ran (result_of r.end) r.steps) r.counts }
{
    RunTold {
        number: run::end_number(r.end),
        started: 1,
        steps: r.steps,
        opcode: opcode_of(r.end),
        value: Words::from(run::end_value(r.end)),
        counts: r.counts,
    }
}

// The byte of error 13.
fn opcode_of(end: Result<Value, Stop>) -> u64
    ensures { result ≡ opcode_of (result_of end) }
{
    match end {
        Err(Stop::Failed(JsVmError::UnknownOpcode(byte))) => u64::from(byte),
        _ => 0,
    }
}

pub fn written(w: Writer, x: Result<Writer, WriteError>) -> WriteTold
    ensures { result ≡ told_write w x }
{
    match x {
        Ok(writer) => WriteTold { number: 0, writer },
        Err(error) => WriteTold {
            number: u64::from(error),
            writer: w,
        },
    }
}
