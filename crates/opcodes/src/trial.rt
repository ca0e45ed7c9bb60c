//! An instruction's own code, tried: one frame with some operand bytes left, and some operands.
ghost use Rattle.std.specs.Prelude.{◌≡◌, if◌then◌else◌, eqb, ◌≤◌, length};
ghost use Rattle.machine.specs.Instruction.{instruction};
ghost use Rattle.machine.specs.Opcodes.{attempt_for};
ghost use Rattle.stacks.specs.Layout.{stack_words};
ghost use Rattle.stacks.specs.View.{Ready};
ghost use Rattle.texts.specs.Keeps.{text_limit, output_limit};
ghost use Rattle.heap.specs.View.{Sized};
ghost use Rattle.fetch.specs.Running.{Runs};
ghost use Rattle.heapops.specs.Turns.{Turns, mem};
ghost use Rattle.finish.specs.Parts.{Ground, tables};
ghost use Rattle.opcodes.specs.Trials.{Objects, Tells, attempt_by, attempted_as};

use fetch::Running;
use heap::{HEAP_WORDS, Sizes};
use heapops::{Counts, How, Turned};
use stacks::{Depths, STACK_WORDS};
use texts::{OUTPUT_LIMIT, TEXT_LIMIT, Texts};
use value::Value;

// The number that the instruction gives, and the operands that stand afterwards, 0 where it does not go on in its frame.
#[derive(Clone, Copy)]
pub struct Attempt {
    pub number: u64,
    pub standing: usize,
}

// The first four operands are objects.
fn place_operands(stacks: &mut [u64])
    requires { length stacks.old ≡ stack_words }
    ensures { Objects stacks.old stacks.new 4 }
{
    for i in 0..4 {
        value::write(stacks, 3 * i, Value::Object(0));
    }
}

// The instruction as a run makes it, from the place behind its opcode.
fn perform(
    op: u8,
    x: Running,
    c: Counts,
    code: &[u8],
    places: &[u16],
    rows: &[u16],
    starts: &[u16],
    stacks: &mut [u64],
    heap: &mut [u64],
    text: &mut [u8],
    output: &mut [u8],
) -> Turned
    requires ready { Ready c.depths stacks.old }
    requires runs { Runs x c.depths stacks.old }
    requires code_in_bounds { c.code ≤ length code.now }
    requires sized { Sized c.sizes heap.old }
    requires text_le_text_limit { (c.text ≤ text_limit) × (length text.old ≡ text_limit) }
    requires output_le_output_limit { (c.output ≤ output_limit) × (length output.old ≡ output_limit) }
    ensures { Turns (Ground x c (tables code.now places.now rows.now starts.now)) (instruction op) c (mem stacks.old heap.old text.old output.old) result (mem stacks.new heap.new text.new output.new) }
{
    let texts = Texts::new(code, c.code, text, c.text);
    let r = dispatch::execute(op, x, c.depths, code, c.code, places, stacks, &texts);
    finish::finish(
        r, x, c, code, places, rows, starts, stacks, heap, text, output,
    )
}

// The operands of the frame that an instruction went on in, 0 where it left it.
fn standing_in(d: Depths) -> usize
    ensures { result ≡ (if eqb d.frames 1 then d.operands else 0) }
{
    if d.frames == 1 { d.operands } else { 0 }
}

fn came(number: u64, standing: usize) -> Attempt
    ensures { attempt_by result ≡ attempted_as number standing }
{
    Attempt { number, standing }
}

// What is told of how it came out.
fn attempted(t: Turned) -> Attempt
    ensures { Tells t result }
{
    match t.how {
        How::Went => came(0, standing_in(t.counts.depths)),
        How::Ended(Ok(_)) => came(0, 0),
        How::Ended(Err(e)) => came(u64::from(e), 0),
        How::Refused(q) => came(u64::from(q), 0),
    }
}

// The instruction of a byte, with n bytes of code left, each of them b, and m operands.
pub fn attempt_of(
    op: u8,
    b: u8,
    n: u16,
    m: usize,
    heap: &mut [u64; HEAP_WORDS],
    text: &mut [u8; TEXT_LIMIT],
    output: &mut [u8; OUTPUT_LIMIT],
) -> Attempt
    requires { (n ≤ 2) × (m ≤ 4) }
    ensures { attempt_by result ≡ attempt_for op b n m }
{
    let code: [u8; 2] = [b, b];
    let places: [u16; 1] = [0];
    let rows: [u16; 8] = [1, 0, 0, 0, 0, 0, 0, n];
    let starts: [u16; 1] = [0];
    let mut stacks: [u64; STACK_WORDS] = [0; STACK_WORDS];
    place_operands(&mut stacks);
    let c = Counts {
        depths: Depths {
            operands: m,
            slots: 0,
            frames: 1,
            handlers: 0,
            ip: 0,
        },
        sizes: Sizes {
            functions: 0,
            objects: 0,
            properties: 0,
            globals: 0,
        },
        code: n as usize,
        images: 1,
        text: 0,
        output: 0,
    };
    let x = fetch::find(&rows, &starts, 1, 0, 0);
    let t = perform(
        op,
        x,
        c,
        &code,
        &places,
        &rows,
        &starts,
        &mut stacks,
        heap,
        text,
        output,
    );
    attempted(t)
}
