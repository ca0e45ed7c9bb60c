//! Prints the table of opcodes: a line for each byte from 0 to 255, with the operand bytes that follow, the least operands taken and the operands pushed, in decimal.
//! A row is what trying the instruction's own code gives; no table is read.
#![tactic(auto)]

mod row;
mod trial;

use heap::HEAP_WORDS;
use texts::{OUTPUT_LIMIT, TEXT_LIMIT};

fn main(rt: HostRuntime) {
    let mut heap = [0u64; HEAP_WORDS];
    let mut text = [0u8; TEXT_LIMIT];
    let mut output = [0u8; OUTPUT_LIMIT];
    for op in 0..=u8::MAX {
        let row = row::row_of(op, &mut heap, &mut text, &mut output);
        // What is printed is the program's only answer: a failure to print is passed over, and the rest is printed all the same.
        let _ = println!(rt; "{op} {row}");
    }
}
