//! Compares crate `number` with the bench sheet's number rows and, from standard input, with the Rust's own answers; tests/number/rows.rs says how
//! these are made. A text is read whole, cut at each place, and byte by byte. A row that differs is printed.
#![tactic(auto)]

ghost use Rattle.std.specs.Prelude.{◌≤◌, length};
ghost use Rattle.std.specs.Iterator.{IsFinite};

use rust::ROW;
use std::fmt;
use std::io::Read;

mod bench;
mod rust;

// The most bytes of a list: of a longer one the rest is not read.
const LIST: usize = 65536;

/// How many rows were compared, and how many of them differ.
#[derive(Default, Drop)]
struct Tally {
    compared: u64,
    differ: u64,
}

impl Tally {
    // The row is printed whole, with the line end that it has of itself.
    fn differs(&mut self, rt: &impl Print, row: &[u8]) {
        print_bytes(rt, b"differs: ");
        print_bytes(rt, row);
        print_bytes(rt, b"\n");
        self.differ = self.differ.saturating_add(1);
    }
}

impl fmt::Display for Tally {
    fn fmt<W: fmt::Write>(&self, f: &mut fmt::Formatter<W>) -> fmt::Result {
        write!(f, "{} compared, {} differ", self.compared, self.differ)
    }
}

// What is printed is the program's only answer: a failure to print is passed over, and the rest is printed all the same.
fn print_bytes(rt: &impl Print, bytes: &[u8]) {
    let _ = rt.write_all(bytes);
}

fn report(rt: &impl Print, name: &str, tally: Tally) {
    let _ = println!(rt; "{name}: {tally}");
}

fn compared<'a, I: Iterator<Item = (&'a [u8], bool)> + Drop>(rt: &impl Print, rows: I) -> Tally
    requires can { I.can_next rows }
    requires ends { IsFinite (I.remaining rows) }
{
    let mut tally = Tally::default();
    for (row, agrees) in rows {
        tally.compared = tally.compared.saturating_add(1);
        if !agrees {
            tally.differs(rt, row);
        }
    }
    tally
}

// Reads until the buffer is full, the input ends or a read fails; answers how many bytes came.
fn read_full(input: &mut impl Read, buffer: &mut [u8]) -> usize
    ensures { result ≤ length buffer.new }
{
    let mut done = 0;
    // each read but the last brings a byte at least
    for _ in 0..buffer.len() {
        match input.read(&mut buffer[done..]) {
            Ok(0) | Err(_) => break,
            Ok(n) => done += n,
        }
    }
    done
}

fn main(rt: HostRuntime) {
    let sheet = bench::rows().into_iter();
    let sheet = sheet.map(|(row, agrees)| (row.as_bytes(), agrees));
    report(&rt, "bench sheet", compared(&rt, sheet));
    let mut buffer = [0u8; LIST];
    let n = read_full(&mut rt.reader(), &mut buffer);
    let (rows, cut) = buffer[..n].as_chunks::<ROW>();
    let rows = rows.iter().map(|row| (row.as_slice(), rust::agrees(row)));
    let mut tally = compared(&rt, rows);
    // What is left at the end of a cut list differs, and is no row that was compared.
    if !cut.is_empty() {
        tally.differs(&rt, cut);
    }
    report(&rt, "Rust", tally);
}
