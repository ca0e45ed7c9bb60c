//! What the programs do with an image: load it into a fresh engine, run it, and print one line of what came of it, then each line of its output after `>`.
#![tactic(auto)]

use heapops::Counts;
use host::{Given, Refusal};
pub use input::read_full;
use run::Ran;
use std::{fmt, io};
pub use stores::Stores;
use value::Value;

mod input;
mod stores;

// The end's number, the steps, the value whose text is printed, and the counts as they stand.
#[derive(Clone, Copy)]
struct Told {
    end: u64,
    steps: u64,
    value: Value,
    counts: Counts,
}

impl Told {
    fn refused(refusal: Refusal, counts: Counts) -> Told {
        Told {
            end: u64::from(refusal),
            steps: 0,
            value: Value::Undefined,
            counts,
        }
    }
}

impl From<Ran> for Told {
    fn from(ran: Ran) -> Told {
        Told {
            end: run::end_number(ran.end),
            steps: ran.steps as u64,
            value: run::end_value(ran.end),
            counts: ran.counts,
        }
    }
}

// All of the line but the value's text, which the stores have.
impl fmt::Display for Told {
    fn fmt<W: fmt::Write>(&self, f: &mut fmt::Formatter<W>) -> fmt::Result {
        let depths = self.counts.depths;
        write!(f, "end {} steps {}", self.end, self.steps)?;
        write!(f, " operands {} frames {}", depths.operands, depths.frames)?;
        write!(f, " handlers {} value ", depths.handlers)
    }
}

// A load into the stores as clear left them, and a run.
fn loaded_and_run(stores: &mut Stores, fresh: Counts, image: &[u8]) -> Told {
    match stores.load(fresh, image) {
        Err(e) => Told::refused(e, fresh),
        Ok((i, loaded)) => match stores.run(loaded, i) {
            Err(e) => Told::refused(e, loaded),
            Ok(ran) => Told::from(ran),
        },
    }
}

// What is printed is a program's only answer: a failure to print is passed over, and the rest is printed all the same.
fn pass_over(_printed: io::Result<()>) {}

// What drain wrote: of each line its size in two bytes, and its bytes.
fn print_lines(rt: &impl Print, drained: &[u8]) {
    let mut rest = drained;
    // each line takes a byte at least, so there are no more lines than bytes
    for _ in 0..drained.len() {
        let [high, low, tail @ ..] = rest else {
            break;
        };
        let size = usize::from(u16::from_be_bytes([*high, *low]));
        let Some((line, after)) = tail.split_at_checked(size) else {
            break;
        };
        pass_over(rt.write_all(b">"));
        pass_over(rt.write_all(line));
        pass_over(rt.write_all(b"\n"));
        rest = after;
    }
}

// Not inlined: its buffers would stand in the frame of `run_image`, beside the stores, while the image runs.
#[inline(never)]
fn print_told(rt: &impl Print, stores: &Stores, buffer: &mut [u8], told: Told) {
    pass_over(print!(rt; "{told}"));
    if let Ok(n) = stores.text_of(told.counts, Given::Plain(told.value), buffer) {
        let size = n.min(buffer.len());
        pass_over(rt.write_all(&buffer[..size]));
        pass_over(rt.write_all(b"\n"));
    }
    if let Ok((n, _)) = stores.drain(told.counts, buffer) {
        let size = n.min(buffer.len());
        print_lines(rt, &buffer[..size]);
    }
}

pub fn run_image(rt: &impl Print, image: &[u8]) {
    let mut stores = Stores::filled(0);
    let Ok(fresh) = stores.clear() else {
        return;
    };
    let told = loaded_and_run(&mut stores, fresh, image);
    let mut buffer = [0u8; 65536];
    print_told(rt, &stores, &mut buffer, told);
}
