//! What instructions do that change more than the stacks: functions, globals, properties, texts, printed lines. The counts of every store.
#![tactic(auto)]

ghost use Rattle.std.specs.Prelude.{◌≡◌};
ghost use Rattle.value.specs.Words.{value_of};
ghost use Rattle.stacks.specs.View.{Ready};
ghost use Rattle.heapops.specs.Turns.{fresh_counts, with_depths, turned, settled_in};
ghost use Rattle.heapops.specs.Makes.{PushesMade, grown_in, placed_as};
ghost use Rattle.heapops.specs.declared.How.TheVariants.{Went, Ended, Refused};

use heap::Sizes;
use stacks::Depths;
use value::{JsVmError, Space, Stop, Value};

pub mod create;
pub mod joining;
pub mod print;
pub mod stores;

// How much of each store is in use.
#[repr(C)]
#[derive(Clone, Copy)]
pub struct Counts {
    pub depths: Depths,
    pub sizes: Sizes,
    pub code: usize,
    pub images: usize,
    pub text: usize,
    pub output: usize,
}

impl Counts {
    // The fresh engine's, with what clear leaves of the heap: nothing else is in use.
    pub fn fresh(sizes: Sizes) -> Counts
        ensures { result ≡ fresh_counts sizes }
    {
        Counts {
            depths: Depths::default(),
            sizes,
            code: 0,
            images: 0,
            text: 0,
            output: 0,
        }
    }

    pub fn with_depths(self, depths: Depths) -> Counts
        ensures { result ≡ with_depths depths self }
    {
        Counts { depths, ..self }
    }

    // Behind an act on the heap, and behind one on the heap and the text
    pub(crate) fn grown(self, r: Result<Sizes, Space>) -> Result<Counts, Space>
        ensures { result ≡ grown_in self r }
    {
        let sizes = r?;
        Ok(Counts { sizes, ..self })
    }

    pub(crate) fn placed(self, r: Result<(Sizes, usize), Space>) -> Result<Counts, Space>
        ensures { result ≡ placed_as self r }
    {
        let (sizes, text) = r?;
        Ok(Counts {
            sizes,
            text,
            ..self
        })
    }
}

// How an instruction came out: it went on, it ended the run, or a store refused.
#[derive(Clone, Copy)]
pub enum How {
    Went,
    Ended(Result<Value, JsVmError>),
    Refused(Space),
}

// A refusal leaves what stood before the instruction, whatever the counts say.
#[derive(Clone, Copy)]
pub struct Turned {
    pub counts: Counts,
    pub how: How,
}

pub fn went(c: Counts) -> Turned
    ensures { result ≡ turned c Went }
{
    Turned {
        counts: c,
        how: How::Went,
    }
}

pub fn refused(c: Counts, q: Space) -> Turned
    ensures { result ≡ turned c (Refused q) }
{
    Turned {
        counts: c,
        how: How::Refused(q),
    }
}

pub fn ended(c: Counts, r: Result<Value, JsVmError>) -> Turned
    ensures { result ≡ turned c (Ended r) }
{
    Turned {
        counts: c,
        how: How::Ended(r),
    }
}

pub fn failed(c: Counts, d: Depths, e: JsVmError) -> Turned
    ensures { result ≡ turned (with_depths d c) (Ended (Err e)) }
{
    ended(c.with_depths(d), Err(e))
}

// The end of an instruction whose last act is a push.
pub fn settle_push(c: Counts, r: Result<Depths, Stop>) -> Turned
    ensures { result ≡ settled_in c r }
{
    match r {
        Ok(d) => went(c.with_depths(d)),
        Err(Stop::Failed(e)) => ended(c, Err(e)),
        Err(Stop::Refused(q)) => refused(c, q),
    }
}

// The end of an instruction that makes something and pushes v: `made` has the counts behind the making, unless a store refused it, and d is what is left of
// the stacks.
pub(crate) fn push_made(
    c: Counts,
    d: Depths,
    made: Result<Counts, Space>,
    stacks: &mut [u64],
    v: Value,
) -> Turned
    requires { Ready d stacks.old }
    ensures { PushesMade c d made (value_of v) stacks.old result stacks.new }
{
    match made {
        Ok(e) => settle_push(e.with_depths(d), d.push(stacks, v)),
        Err(q) => refused(c, q),
    }
}
