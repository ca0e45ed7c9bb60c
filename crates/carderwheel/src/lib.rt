//! The C face of the host calls: the stores as slices, the counts by value, and one flat answer a shape. include/carderwheel.h gives them one struct.
//! write.rt has that of the image writer, table.rt that of the table of opcodes.
#![tactic(auto)]

ghost use Rattle.std.specs.Prelude.{length};
ghost use Rattle.machine.specs.Host as Host;
ghost use Rattle.machine.specs.Act.{plain, as_bytes};
ghost use Rattle.heapops.specs.Turns.{mem};
ghost use Rattle.finish.specs.Parts.{tables};
ghost use Rattle.host.specs.Calls.{Buffered};
ghost use Rattle.answers.specs.Flat.{Tells, TellsValue, TellsRun, TellsClear, numbered_by, changed_by, wrote_by, value_by};

use answers::{Answer, RunTold, ValueAnswer, answered, changed, ran, wrote};
use heapops::Counts;
use host::{Given, Images, Memory};
use value::Words;

mod table;
mod write;

#[unsafe(no_mangle)]
pub extern "C" fn carderwheel_clear_in(
    code: &mut [u8],
    places: &mut [u16],
    rows: &mut [u16],
    starts: &mut [u16],
    stacks: &mut [u64],
    heap: &mut [u64],
    text: &mut [u8],
    output: &mut [u8],
    counts: Counts,
) -> Answer
    ensures { TellsClear counts (tables code.old places.old rows.old starts.old) (mem stacks.old heap.old text.old output.old) result (tables code.new places.new rows.new starts.new) (mem stacks.new heap.new text.new output.new) }
{
    let x = engine::clear(code, places, rows, starts, stacks, heap, text, output);
    changed(counts, x)
}

#[unsafe(no_mangle)]
pub extern "C" fn carderwheel_load_in(
    code: &mut [u8],
    places: &mut [u16],
    rows: &mut [u16],
    starts: &mut [u16],
    stacks: &[u64],
    heap: &[u64],
    text: &[u8],
    output: &[u8],
    counts: Counts,
    image: &[u8],
) -> Answer
    ensures { Tells (Host.load image.now) counts (tables code.old places.old rows.old starts.old) (mem stacks.now heap.now text.now output.now) (numbered_by result) result (tables code.new places.new rows.new starts.new) (mem stacks.now heap.now text.now output.now) }
{
    let memory = Memory {
        stacks,
        heap,
        text,
        output,
    };
    let x = engine::images::load(code, places, rows, starts, memory, counts, image);
    answered(counts, x)
}

#[unsafe(no_mangle)]
pub extern "C" fn carderwheel_register_in(
    code: &[u8],
    places: &[u16],
    rows: &[u16],
    starts: &[u16],
    stacks: &[u64],
    heap: &mut [u64],
    text: &[u8],
    output: &[u8],
    counts: Counts,
    image: usize,
    template: usize,
) -> Answer
    ensures { Tells (Host.register image template) counts (tables code.now places.now rows.now starts.now) (mem stacks.now heap.old text.now output.now) (numbered_by result) result (tables code.now places.now rows.now starts.now) (mem stacks.now heap.new text.now output.now) }
{
    let images = Images {
        code,
        places,
        rows,
        starts,
    };
    let x = engine::images::register(images, stacks, heap, text, output, counts, image, template);
    answered(counts, x)
}

#[unsafe(no_mangle)]
pub extern "C" fn carderwheel_set_global_in(
    code: &[u8],
    places: &[u16],
    rows: &[u16],
    starts: &[u16],
    stacks: &[u64],
    heap: &mut [u64],
    text: &mut [u8],
    output: &[u8],
    counts: Counts,
    name: &[u8],
    value: Words,
) -> Answer
    ensures { Tells (Host.set_global name.now (plain (value_by value))) counts (tables code.now places.now rows.now starts.now) (mem stacks.now heap.old text.old output.now) (changed_by result) result (tables code.now places.now rows.now starts.now) (mem stacks.now heap.new text.new output.now) }
{
    let images = Images {
        code,
        places,
        rows,
        starts,
    };
    let given = Given::from(value);
    let x = globals::set_global(images, stacks, heap, text, output, counts, name, given);
    changed(counts, x)
}

#[unsafe(no_mangle)]
pub extern "C" fn carderwheel_set_global_text_in(
    code: &[u8],
    places: &[u16],
    rows: &[u16],
    starts: &[u16],
    stacks: &[u64],
    heap: &mut [u64],
    text: &mut [u8],
    output: &[u8],
    counts: Counts,
    name: &[u8],
    given: &[u8],
) -> Answer
    ensures { Tells (Host.set_global name.now (as_bytes given.now)) counts (tables code.now places.now rows.now starts.now) (mem stacks.now heap.old text.old output.now) (changed_by result) result (tables code.now places.now rows.now starts.now) (mem stacks.now heap.new text.new output.now) }
{
    let images = Images {
        code,
        places,
        rows,
        starts,
    };
    let given = Given::from(given);
    let x = globals::set_global(images, stacks, heap, text, output, counts, name, given);
    changed(counts, x)
}

#[unsafe(no_mangle)]
pub extern "C" fn carderwheel_read_global_in(
    code: &[u8],
    places: &[u16],
    rows: &[u16],
    starts: &[u16],
    stacks: &[u64],
    heap: &[u64],
    text: &[u8],
    output: &[u8],
    counts: Counts,
    name: &[u8],
) -> ValueAnswer
    ensures { TellsValue (Host.read_global name.now) counts (tables code.now places.now rows.now starts.now) (mem stacks.now heap.now text.now output.now) result }
{
    let images = Images {
        code,
        places,
        rows,
        starts,
    };
    let memory = Memory {
        stacks,
        heap,
        text,
        output,
    };
    ValueAnswer::from(globals::read_global(images, memory, counts, name))
}

#[unsafe(no_mangle)]
pub extern "C" fn carderwheel_run_in(
    code: &[u8],
    places: &[u16],
    rows: &[u16],
    starts: &[u16],
    stacks: &mut [u64],
    heap: &mut [u64],
    text: &mut [u8],
    output: &mut [u8],
    counts: Counts,
    image: usize,
) -> RunTold
    ensures { TellsRun (Host.run image) counts (tables code.now places.now rows.now starts.now) (mem stacks.old heap.old text.old output.old) result (mem stacks.new heap.new text.new output.new) }
{
    let images = Images {
        code,
        places,
        rows,
        starts,
    };
    let x = engine::runs::run(images, stacks, heap, text, output, counts, image);
    ran(counts, x)
}

#[unsafe(no_mangle)]
pub extern "C" fn carderwheel_text_in<'a>(
    code: &'a [u8],
    places: &[u16],
    rows: &[u16],
    starts: &[u16],
    stacks: &[u64],
    heap: &[u64],
    text: &'a [u8],
    output: &[u8],
    counts: Counts,
    value: Words,
    buffer: &mut [u8],
) -> Answer
    ensures tells { Tells (Host.text (plain (value_by value)) (length buffer.old)) counts (tables code.now places.now rows.now starts.now) (mem stacks.now heap.now text.now output.now) (wrote_by result buffer.new) result (tables code.now places.now rows.now starts.now) (mem stacks.now heap.now text.now output.now) }
    ensures buffered { Buffered (wrote_by result buffer.new) buffer.old buffer.new }
{
    let images = Images {
        code,
        places,
        rows,
        starts,
    };
    let memory = Memory {
        stacks,
        heap,
        text,
        output,
    };
    let x = buffers::text_of(images, memory, counts, Given::from(value), buffer);
    wrote(counts, x)
}

#[unsafe(no_mangle)]
pub extern "C" fn carderwheel_text_bytes_in(
    code: &[u8],
    places: &[u16],
    rows: &[u16],
    starts: &[u16],
    stacks: &[u64],
    heap: &[u64],
    text: &[u8],
    output: &[u8],
    counts: Counts,
    given: &[u8],
    buffer: &mut [u8],
) -> Answer
    ensures tells { Tells (Host.text (as_bytes given.now) (length buffer.old)) counts (tables code.now places.now rows.now starts.now) (mem stacks.now heap.now text.now output.now) (wrote_by result buffer.new) result (tables code.now places.now rows.now starts.now) (mem stacks.now heap.now text.now output.now) }
    ensures buffered { Buffered (wrote_by result buffer.new) buffer.old buffer.new }
{
    let images = Images {
        code,
        places,
        rows,
        starts,
    };
    let memory = Memory {
        stacks,
        heap,
        text,
        output,
    };
    let x = buffers::text_of(images, memory, counts, Given::from(given), buffer);
    wrote(counts, x)
}

#[unsafe(no_mangle)]
pub extern "C" fn carderwheel_drain_in(
    code: &[u8],
    places: &[u16],
    rows: &[u16],
    starts: &[u16],
    stacks: &[u64],
    heap: &[u64],
    text: &[u8],
    output: &[u8],
    counts: Counts,
    buffer: &mut [u8],
) -> Answer
    ensures tells { Tells (Host.drain (length buffer.old)) counts (tables code.now places.now rows.now starts.now) (mem stacks.now heap.now text.now output.now) (wrote_by result buffer.new) result (tables code.now places.now rows.now starts.now) (mem stacks.now heap.now text.now output.now) }
    ensures buffered { Buffered (wrote_by result buffer.new) buffer.old buffer.new }
{
    let images = Images {
        code,
        places,
        rows,
        starts,
    };
    let memory = Memory {
        stacks,
        heap,
        text,
        output,
    };
    let x = buffers::drain(images, memory, counts, buffer);
    answered(counts, x)
}
