//! For the measurements of bench/run: reads a count in decimal, a line end and an image from standard input; then clears, loads and runs the image that many
//! times, and prints the last run's end and steps.
#![tactic(auto)]

use host::Refusal;
use report::{Stores, read_full};
use run::Ran;
use std::fmt;

// The bytes of standard input that are taken.
const MOST: usize = 70000;

// The number of a refused call stands for the end, with no steps.
#[derive(Clone, Copy, Default)]
struct Last {
    end: u64,
    steps: u64,
}

impl From<Ran> for Last {
    fn from(ran: Ran) -> Last {
        Last {
            end: run::end_number(ran.end),
            steps: ran.steps as u64,
        }
    }
}

impl From<Refusal> for Last {
    fn from(refusal: Refusal) -> Last {
        Last {
            end: u64::from(refusal),
            steps: 0,
        }
    }
}

impl fmt::Display for Last {
    fn fmt<W: fmt::Write>(&self, f: &mut fmt::Formatter<W>) -> fmt::Result {
        write!(f, "end {} steps {}", self.end, self.steps)
    }
}

fn once(stores: &mut Stores, image: &[u8]) -> Result<Ran, Refusal> {
    let fresh = stores.clear()?;
    let (i, loaded) = stores.load(fresh, image)?;
    stores.run(loaded, i)
}

fn many(stores: &mut Stores, image: &[u8], count: u64) -> Last {
    let mut last = Last::default();
    for _ in 0..count {
        last = match once(stores, image) {
            Ok(ran) => Last::from(ran),
            Err(refusal) => Last::from(refusal),
        };
    }
    last
}

// A number with one digit more, as far as it is short; a byte below the digits is passed over.
fn longer(n: u64, b: u8) -> u64 {
    match b.checked_sub(b'0') {
        Some(digit) if n < 100000000 => (n * 10).wrapping_add(u64::from(digit)),
        _ => n,
    }
}

// The count, and the image behind the first line end; without one nothing is run.
fn counted(input: &[u8]) -> (u64, &[u8]) {
    match input.iter().position(|b| *b == b'\n') {
        Some(end) => {
            let count = input[..end].iter().fold(0, |n, b| longer(n, *b));
            (count, &input[end + 1..])
        }
        None => (0, b""),
    }
}

fn main(rt: HostRuntime) {
    let mut input = [0u8; MOST];
    let n = read_full(&mut rt.stdin(), &mut input);
    let (count, image) = counted(&input[..n]);
    let mut stores = Stores::filled(0);
    let last = many(&mut stores, image, count);
    // what is printed is the program's only answer: a failure to print is passed over
    let _ = println!(rt; "{last}");
}
