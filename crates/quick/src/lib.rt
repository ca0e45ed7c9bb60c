//! The commonest instructions, where nothing stops them: values moved by their words, two operands that are numbers, jumps, tries and returns.
//! Each either goes as the machine's program does, or is left whole to `dispatch`.
//! A step's tests of depths are written out: with `checked_sub` a StoreLocal took three instructions more, and a Throw six.
#![tactic(auto)]

pub mod control;
pub mod moves;
pub mod numbers;

ghost use Rattle.std.specs.Prelude.{◌≡◌, ℕ, ◌+◌, ◌*◌, ◌≤◌, ◌<◌, SomeIff, length, get_or};
ghost use Rattle.machine.specs.State.{operand_limit};
ghost use Rattle.machine.specs.Instruction.{instruction, pushed};
ghost use Rattle.value.specs.Words.{value_of, value_at};
ghost use Rattle.stacks.specs.Layout.{stack_words};
ghost use Rattle.stacks.specs.View.{Ready};
ghost use Rattle.outcome.specs.Meets.{Any};
ghost use Rattle.readops.specs.Holds.{Constants};
ghost use Rattle.quick.specs.Quickly.{quick_of, Quickly, QuickStep, Inside, Operand, Word};
ghost use Rattle.quick.specs.Stays.{Stays, InFrame, Stands};

use fetch::Running;
use opcode::Opcode;
use stackops::operators::{Add, Div, Gt, GtEq, Lt, LtEq, Mul, Sub};
use stacks::{Depths, FRAMES_AT, OPERAND_LIMIT, SLOTS_AT};
use value::{Stop, Value};

pub fn settle(r: Result<Depths, Stop>) -> Option<Depths>
    ensures { result ≡ quick_of r }
{
    r.ok()
}

// Of the newest frame: where its slots stand and how many they are, and the place from which on fewer than three bytes of its code are left.
#[derive(Clone, Copy)]
pub struct Here {
    pub slots: usize,
    pub count: usize,
    pub last: usize,
}

// Is the newest frame one of the template x, with its slots on top of the others?
pub fn stand(x: Running, d: Depths, stacks: &[u64]) -> Option<Here>
    requires { Ready d stacks.now }
    ensures { Stands x d stacks.now result }
{
    let newest = d.frames.checked_sub(1)?;
    let f = stacks::read_frame(stacks, FRAMES_AT + 5 * newest);
    if f.image != x.image || f.template != x.template {
        return None;
    }
    let base = f.base as usize;
    let count = d.slots.checked_sub(base)?;
    if f.count as usize != count {
        return None;
    }
    Some(Here {
        slots: SLOTS_AT + 3 * base,
        count,
        last: x.shape.size.saturating_sub(2),
    })
}

// The byte at a place of the code.
pub fn byte_at(code: &[u8], at: usize) -> usize
    requires { at < length code.now }
    ensures { (result ≡ get_or code.now at 0) × (result < 256) }
{
    usize::from(code[at])
}

pub fn opcode_at(code: &[u8], at: usize) -> u8
    requires { at < length code.now }
    ensures { (result ≡ get_or code.now at 0) × (result < 256) }
{
    code[at]
}

// `read_u16`
pub fn word_at(code: &[u8], at: usize) -> usize
    requires { at + 1 < length code.now }
    ensures { Word code.now at result }
{
    let hi = byte_at(code, at);
    let lo = byte_at(code, at + 1);
    hi * 256 + lo
}

// Where one operand more is to stand, if there is room.
fn room(d: Depths) -> Option<usize>
    ensures { SomeIff result (d.operands < operand_limit) (3 * d.operands) }
{
    if OPERAND_LIMIT <= d.operands {
        return None;
    }
    Some(3 * d.operands)
}

pub fn push(d: Depths, stacks: &mut [u64], v: Value) -> Option<Depths>
    requires { Ready d stacks.old }
    ensures quickly { Quickly Any (pushed (value_of v)) d stacks.old result stacks.new }
    ensures stays { Stays d stacks.old result stacks.new }
{
    let at = room(d)?;
    value::write(stacks, at, v);
    Some(d.with_operands(d.operands + 1))
}

// The value at place k of the store, pushed.
pub fn push_copy(d: Depths, stacks: &mut [u64], k: usize) -> Option<Depths>
    requires ready { Ready d stacks.old }
    requires k_bound { k + 2 < stack_words }
    ensures quickly { Quickly Any (pushed (value_at stacks.old k)) d stacks.old result stacks.new }
    ensures stays { Stays d stacks.old result stacks.new }
{
    let at = room(d)?;
    value::copy(stacks, at, k);
    Some(d.with_operands(d.operands + 1))
}

// The value at place k of another store, pushed.
pub fn push_from(d: Depths, stacks: &mut [u64], source: &[u64], k: usize) -> Option<Depths>
    requires ready { Ready d stacks.old }
    requires k_in_bounds { k + 2 < length source.now }
    ensures quickly { Quickly Any (pushed (value_at source.now k)) d stacks.old result stacks.new }
    ensures stays { Stays d stacks.old result stacks.new }
{
    let at = room(d)?;
    value::bring(stacks, at, source, k);
    Some(d.with_operands(d.operands + 1))
}

// i is the operand that follows the opcode, if it has one.
fn execute(
    op: u8,
    x: Running,
    y: Here,
    d: Depths,
    i: usize,
    code: &[u8],
    n: usize,
    places: &[u16],
    stacks: &mut [u64],
) -> Option<Depths>
    requires ready { Ready d stacks.old }
    requires in_frame { InFrame x y d stacks.old }
    requires operand { Operand x n code.now d i }
    ensures quickly { Quickly (Constants x n code.now places.now) (instruction op) d stacks.old result stacks.new }
    ensures stays { Stays d stacks.old result stacks.new }
{
    match op {
        Opcode::LOAD_CONST => moves::load_const(x, y, d, i, code, n, places, stacks),
        Opcode::LOAD_LOCAL => moves::load_local(x, y, d, i, code, n, stacks),
        Opcode::STORE_LOCAL => moves::store_local(x, y, d, i, code, n, stacks),
        Opcode::ADD => numbers::compute::<Add>(d, stacks),
        Opcode::SUB => numbers::compute::<Sub>(d, stacks),
        Opcode::MUL => numbers::compute::<Mul>(d, stacks),
        Opcode::DIV => numbers::compute::<Div>(d, stacks),
        Opcode::LT => numbers::compare::<Lt>(d, stacks),
        Opcode::GT => numbers::compare::<Gt>(d, stacks),
        Opcode::LT_EQ => numbers::compare::<LtEq>(d, stacks),
        Opcode::GT_EQ => numbers::compare::<GtEq>(d, stacks),
        Opcode::JUMP => control::jump(x, d, i, code, n),
        Opcode::JUMP_IF_FALSE => control::jump_if::<false>(x, y, d, i, code, n, stacks),
        Opcode::JUMP_IF_TRUE => control::jump_if::<true>(x, y, d, i, code, n, stacks),
        Opcode::THROW => control::throw(x, y, d, stacks),
        Opcode::ENTER_TRY => control::enter_try(x, y, d, i, code, n, stacks),
        Opcode::LEAVE_TRY => control::leave_try(d),
        Opcode::POP => moves::pop(d),
        Opcode::DUP => moves::dup(d, stacks),
        _ => None,
    }
}

// The next instruction, if it is one of these and nothing stops it. All n bytes of the template's code are loaded.
pub fn step(
    x: Running,
    y: Here,
    d: Depths,
    code: &[u8],
    n: usize,
    places: &[u16],
    stacks: &mut [u64],
) -> Option<Depths>
    requires ready { Ready d stacks.old }
    requires in_frame { InFrame x y d stacks.old }
    requires inside { Inside x n code.now }
    ensures quick_step { QuickStep (Constants x n code.now places.now) d stacks.old result stacks.new }
    ensures stays { Stays d stacks.old result stacks.new }
{
    let p = d.ip;
    if p < y.last {
        let at = x.shape.at + p;
        let op = opcode_at(code, at);
        let i = word_at(code, at + 1);
        return execute(op, x, y, d.with_ip(p + 1), i, code, n, places, stacks);
    }
    None
}
