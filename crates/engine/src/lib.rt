//! The host calls that make an engine: clear; load and register; run. Each is lent every store; a call that is refused alters nothing. specs/Demand3 has the claim
//! about every list of calls.
#![tactic(auto)]

ghost use Rattle.heapops.specs.Turns.{mem};
ghost use Rattle.finish.specs.Parts.{tables};
ghost use Rattle.host.specs.Calls.{Clears};

use heapops::Counts;
use host::{Images, Memory, Refusal, questions};

pub mod images;
pub mod runs;

pub fn clear(
    code: &mut [u8],
    places: &mut [u16],
    rows: &mut [u16],
    starts: &mut [u16],
    stacks: &mut [u64],
    heap: &mut [u64],
    text: &mut [u8],
    output: &mut [u8],
) -> Result<Counts, Refusal>
    ensures { Clears (tables code.old places.old rows.old starts.old) (mem stacks.old heap.old text.old output.old) result (tables code.new places.new rows.new starts.new) (mem stacks.new heap.new text.new output.new) }
{
    let images = Images {
        code,
        places,
        rows,
        starts,
    };
    let memory = Memory {
        stacks,
        heap,
        text,
        output,
    };
    questions::sizes(images, memory)?;
    Ok(Counts::fresh(heap::clear(heap)))
}
