//! What comes of an instruction, and the steps that many instructions share.
#![tactic(auto)]

ghost use Rattle.std.specs.Prelude.{◌≡◌};
ghost use Rattle.machine.specs.Instruction.{pushed};
ghost use Rattle.value.specs.Words.{value_of};
ghost use Rattle.stacks.specs.View.{Ready};
ghost use Rattle.outcome.specs.Meets.{Meets, Any, stepped, settled_of, stopped_by, Pairs, underflow_of};
ghost use Rattle.outcome.specs.declared.Part.TheVariants.{Went, Ended};

use opcode::Deferred;
use stacks::Depths;
use value::{JsVmError, Space, Stop, Value};

// How an instruction came out, as far as it is one on the stacks: it went on, it ended the run, or a store refused. Else it says what is left to do with the
// other stores: register a function (an image and a template), join the texts of two values, print so many arguments, or all of the instruction.
#[derive(Clone, Copy)]
pub enum Part {
    Went,
    Ended(Result<Value, JsVmError>),
    Refused(Space),
    Register(u64, u64),
    Join(Value, Value),
    Print(usize),
    More(Deferred),
}

// A refusal leaves what stood before the instruction, whatever the depths say.
#[derive(Clone, Copy)]
pub struct Stepped {
    pub depths: Depths,
    pub how: Part,
}

pub fn went(d: Depths) -> Stepped
    ensures { result ≡ stepped d Went }
{
    Stepped {
        depths: d,
        how: Part::Went,
    }
}

pub fn ended(e: Result<Value, JsVmError>, d: Depths) -> Stepped
    ensures { result ≡ stepped d (Ended e) }
{
    Stepped {
        depths: d,
        how: Part::Ended(e),
    }
}

pub fn failed(e: JsVmError, d: Depths) -> Stepped
    ensures { result ≡ stepped d (Ended (Err e)) }
{
    ended(Err(e), d)
}

pub fn left_to_do(how: Part, d: Depths) -> Stepped
    ensures { result ≡ stepped d how }
{
    Stepped { depths: d, how }
}

// Error 15: whatever stood is popped.
pub fn underflow(d: Depths) -> Stepped
    ensures { result ≡ underflow_of d }
{
    failed(JsVmError::StackUnderflow, d.with_operands(0))
}

// An act that was not made ends the instruction.
pub fn stopped(s: Stop, d: Depths) -> Stepped
    ensures { result ≡ stopped_by s d }
{
    match s {
        Stop::Failed(e) => failed(e, d),
        Stop::Refused(q) => Stepped {
            depths: d,
            how: Part::Refused(q),
        },
    }
}

// The end of an instruction whose last act is one on the stacks.
pub fn settle(r: Result<Depths, Stop>, d: Depths) -> Stepped
    ensures { result ≡ settled_of r d }
{
    match r {
        Ok(e) => went(e),
        Err(s) => stopped(s, d),
    }
}

pub fn push_value(d: Depths, stacks: &mut [u64], v: Value) -> Stepped
    requires { Ready d stacks.old }
    ensures { Meets Any (pushed (value_of v)) d stacks.old result stacks.new }
{
    settle(d.push(stacks, v), d)
}

pub fn pop_two(d: Depths, stacks: &[u64]) -> Option<(Value, Value, Depths)>
    requires { Ready d stacks.now }
    ensures { Pairs d stacks.now result }
{
    let (b, e) = d.pop(stacks)?;
    let (a, f) = e.pop(stacks)?;
    Some((a, b, f))
}
