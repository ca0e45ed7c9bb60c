//! Runs the bench sheet's rows on operands, slots, keys and arrays over the stores, and says how many differ.
#![tactic(auto)]

use heap::HEAP_WORDS;
use stacks::STACK_WORDS;
use std::fmt;
use texts::TEXT_LIMIT;

mod object_rows;
mod stack_rows;

/// Some rows: does each agree with the sheet?
#[derive(Clone, Copy)]
struct Rows<'a>(&'a [bool]);

impl fmt::Display for Rows<'_> {
    fn fmt<W: fmt::Write>(&self, f: &mut fmt::Formatter<W>) -> fmt::Result {
        let rows = self.0.len();
        let differ = self.0.iter().filter(|agrees| !**agrees).count();
        write!(f, "{rows} compared, {differ} differ")
    }
}

// What is printed is the program's only answer: a failure to print is passed over, and the rest is printed all the same.
fn report(rt: &impl Print, name: &str, rows: &[bool]) {
    let _ = println!(rt; "{name}: {}", Rows(rows));
}

fn main(rt: HostRuntime) {
    let mut stacks = [0u64; STACK_WORDS];
    let mut heap = [0u64; HEAP_WORDS];
    let mut text = [0u8; TEXT_LIMIT];
    report(&rt, "stacks", &stack_rows::rows(&mut stacks));
    let rows = object_rows::rows(&mut heap, &mut text, &mut stacks);
    report(&rt, "arrays", &rows);
}
