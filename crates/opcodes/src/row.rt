//! The row of an opcode, by trying it.
ghost use Rattle.std.specs.Prelude.{◌≡◌, not, ◌+◌, ◌-◌, ◌<◌, ◌≤◌, eqb};
ghost use Rattle.std.specs.Prelude.{if◌then◌else◌};
ghost use Rattle.machine.specs.Opcodes.{attempt_for, bytes_from, operands_from, row_for};
ghost use Rattle.opcodes.specs.Rows.{row_by};

use crate::trial::attempt_of;
use heap::HEAP_WORDS;
use std::fmt;
use texts::{OUTPUT_LIMIT, TEXT_LIMIT};

#[derive(Clone, Copy)]
pub struct Row {
    pub bytes: u64,
    pub taken: u64,
    pub pushed: u64,
}

impl fmt::Display for Row {
    fn fmt<W: fmt::Write>(&self, f: &mut fmt::Formatter<W>) -> fmt::Result {
        write!(f, "{} {} {}", self.bytes, self.taken, self.pushed)
    }
}

// The least bytes with which it does not give 14.
fn bytes_for(
    op: u8,
    heap: &mut [u64; HEAP_WORDS],
    text: &mut [u8; TEXT_LIMIT],
    output: &mut [u8; OUTPUT_LIMIT],
) -> u16
    ensures { result ≡ bytes_from (attempt_for op) }
{
    for n in 0..2 {
        let a = attempt_of(op, 0, n, 4, heap, text, output);
        if a.number != 14 {
            return n;
        }
    }
    2
}

// The least operands with which it does not give 15.
fn operands_for(
    op: u8,
    heap: &mut [u64; HEAP_WORDS],
    text: &mut [u8; TEXT_LIMIT],
    output: &mut [u8; OUTPUT_LIMIT],
) -> usize
    ensures { (result ≡ operands_from (attempt_for op)) × (result ≤ 3) }
{
    for m in 0..3 {
        let a = attempt_of(op, 0, 2, m, heap, text, output);
        if a.number != 15 {
            return m;
        }
    }
    3
}

// Where what stands afterwards depends on the operand bytes, these say how many are taken.
fn taken(standing: usize, other: usize, least: usize) -> u64
    ensures { result ≡ (if not (eqb standing other) then 254 else least) }
{
    if standing != other { 254 } else { least as u64 }
}

// Of four operands, the least are taken, and so many stand afterwards.
fn pushed(standing: usize, least: usize) -> u64
    requires { least ≤ 3 }
    ensures { result ≡ (standing + least) - 4 }
{
    standing.saturating_sub(4 - least) as u64
}

pub fn row_of(
    op: u8,
    heap: &mut [u64; HEAP_WORDS],
    text: &mut [u8; TEXT_LIMIT],
    output: &mut [u8; OUTPUT_LIMIT],
) -> Row
    ensures { row_by result ≡ row_for op }
{
    let whole = attempt_of(op, 0, 2, 4, heap, text, output);
    if whole.number == 13 {
        return Row {
            bytes: 255,
            taken: 255,
            pushed: 255,
        };
    }
    let other = attempt_of(op, 1, 2, 4, heap, text, output);
    let bytes = bytes_for(op, heap, text, output);
    let least = operands_for(op, heap, text, output);
    Row {
        bytes: bytes as u64,
        taken: taken(whole.standing, other.standing, least),
        pushed: pushed(whole.standing, least),
    }
}
