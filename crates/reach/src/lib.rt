//! Globals, properties and elements that are there; and what leaves the frame or makes a text: calls, returns, throws, texts joined. Each instruction either
//! goes as the machine's program does, or is left whole.
#![tactic(auto)]

pub mod elements;
pub mod leaps;
pub mod loads;
pub mod names;
pub mod stores;

ghost use Rattle.std.specs.Prelude.{◌≡◌, ℕ, ◌+◌, ◌<◌, ◌≤◌, List, length};
ghost use Rattle.machine.specs.Instruction.{instruction};
ghost use Rattle.stacks.specs.View.{Ready};
ghost use Rattle.texts.specs.Keeps.{text_limit};
ghost use Rattle.heap.specs.View.{Sized};
ghost use Rattle.fetch.specs.Running.{Runs};
ghost use Rattle.heapops.specs.Turns.{mem};
ghost use Rattle.finish.specs.Parts.{Ground, tables};
ghost use Rattle.quick.specs.Quickly.{Inside, Operand};
ghost use Rattle.quick.specs.Stays.{Stays, InFrame};
ghost use Rattle.reach.specs.Distinct.{Distinct};
ghost use Rattle.reach.specs.Reaches.{Reaches, ReachStep, counted, quick_in, Sure};

use fetch::Running;
use heapops::Counts;
use opcode::Opcode;
use quick::{Here, opcode_at, word_at};
use stacks::Depths;

// With the row that was found, or with how much text there is now.
pub fn with_count(q: Option<Depths>, n: usize) -> Option<(Depths, usize)>
    ensures { result ≡ counted n q }
{
    Some((q?, n))
}

// x is the template of the newest frame; i is the operand that follows the opcode, if it has one.
fn execute(
    op: u8,
    x: Running,
    c: Counts,
    i: usize,
    guess: usize,
    code: &[u8],
    places: &[u16],
    stacks: &mut [u64],
    heap: &mut [u64],
    text: &[u8],
) -> Option<(Depths, usize)>
    requires ready { Ready c.depths stacks.old }
    requires runs { Runs x c.depths stacks.old }
    requires operand { Operand x c.code code.now c.depths i }
    requires code_in_bounds { c.code ≤ length code.now }
    requires sized { Sized c.sizes heap.old }
    requires text_le_text_limit { (c.text ≤ text_limit) × (length text.now ≡ text_limit) }
    ensures reaches { (rows starts o : List ℕ) → Reaches (Sure (Distinct c.sizes heap.old c.text text.now) (Ground x c (tables code.now places.now rows starts))) (instruction op) c (mem stacks.old heap.old text.now o) (quick_in result) (mem stacks.new heap.new text.now o) }
    ensures stays { Stays c.depths stacks.old (quick_in result) stacks.new }
{
    match op {
        Opcode::LOAD_GLOBAL => loads::load_global(x, c, i, guess, code, places, stacks, heap, text),
        Opcode::STORE_GLOBAL => stores::store_global(
            x, c, i, guess, code, places, stacks, heap, text,
        ),
        Opcode::LOAD_PROPERTY => loads::load_property(
            x, c, i, guess, code, places, stacks, heap, text,
        ),
        Opcode::STORE_PROPERTY => stores::store_property(
            x, c, i, guess, code, places, stacks, heap, text,
        ),
        Opcode::LOAD_INDEX => elements::load_index(c, guess, stacks, heap, text),
        Opcode::STORE_INDEX => elements::store_index(c, guess, stacks, heap, text),
        _ => None,
    }
}

// The next instruction, if it is one of these and nothing stops it.
pub fn step(
    x: Running,
    y: Here,
    c: Counts,
    guess: usize,
    code: &[u8],
    places: &[u16],
    stacks: &mut [u64],
    heap: &mut [u64],
    text: &[u8],
) -> Option<(Depths, usize)>
    requires ready { Ready c.depths stacks.old }
    requires in_frame { InFrame x y c.depths stacks.old }
    requires inside { Inside x c.code code.now }
    requires sized { Sized c.sizes heap.old }
    requires text_le_text_limit { (c.text ≤ text_limit) × (length text.now ≡ text_limit) }
    ensures reaches { (rows starts o : List ℕ) → ReachStep (Sure (Distinct c.sizes heap.old c.text text.now) (Ground x c (tables code.now places.now rows starts))) c (mem stacks.old heap.old text.now o) (quick_in result) (mem stacks.new heap.new text.now o) }
    ensures stays { Stays c.depths stacks.old (quick_in result) stacks.new }
{
    let d = c.depths;
    let p = d.ip;
    if p < y.last {
        let at = x.shape.at + p;
        let op = opcode_at(code, at);
        let i = word_at(code, at + 1);
        let e = c.with_depths(d.with_ip(p + 1));
        return execute(op, x, e, i, guess, code, places, stacks, heap, text);
    }
    None
}
