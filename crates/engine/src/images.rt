//! Load and register: what an image brings, and a template of it made a function.
ghost use Rattle.machine.specs.Host as Host;
ghost use Rattle.heapops.specs.Turns.{mem};
ghost use Rattle.finish.specs.Parts.{tables, tables_of};
ghost use Rattle.host.specs.Calls.{Called, answer_of_numbered, counts_of_numbered};
ghost use Rattle.host.specs.Stores.{mem_of};

use heapops::Counts;
use host::{Images, Memory, Refusal, questions};
use image::ImageCounts;

pub fn load(
    code: &mut [u8],
    places: &mut [u16],
    rows: &mut [u16],
    starts: &mut [u16],
    memory: Memory,
    c: Counts,
    image: &[u8],
) -> Result<(usize, Counts), Refusal>
    ensures { Called (Host.load image.now) c (tables code.old places.old rows.old starts.old) (mem_of memory.entry) (answer_of_numbered result) (counts_of_numbered c result) (tables code.new places.new rows.new starts.new) (mem_of memory.entry) }
{
    let images = Images {
        code,
        places,
        rows,
        starts,
    };
    questions::lent(images, memory, c)?;
    let held = ImageCounts {
        code: c.code,
        images: c.images,
    };
    let (number, held) = image::load(code, places, rows, starts, held, image)?;
    let counts = Counts {
        code: held.code,
        images: held.images,
        ..c
    };
    Ok((number, counts))
}

pub fn register(
    images: Images,
    stacks: &[u64],
    heap: &mut [u64],
    text: &[u8],
    output: &[u8],
    c: Counts,
    image: usize,
    template: usize,
) -> Result<(usize, Counts), Refusal>
    ensures { Called (Host.register image template) c (tables_of images.entry) (mem stacks.now heap.old text.now output.now) (answer_of_numbered result) (counts_of_numbered c result) (tables_of images.entry) (mem stacks.now heap.new text.now output.now) }
{
    let memory = Memory {
        stacks,
        heap,
        text,
        output,
    };
    questions::lent(images, memory, c)?;
    questions::loaded(images, c, image)?;
    questions::template(images, c, image, template)?;
    let sizes = heap::add_function(c.sizes, heap, image as u64, template as u64)?;
    Ok((c.sizes.functions, Counts { sizes, ..c }))
}
