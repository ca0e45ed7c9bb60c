//! Dispatch of the instructions that change nothing but the stacks and are run most, and a step as far as it is one on the stacks.
#![tactic(auto)]

ghost use Rattle.std.specs.Prelude.{◌≡◌, ◌≤◌, length};
ghost use Rattle.machine.specs.Instruction.{instruction};
ghost use Rattle.stacks.specs.View.{Ready};
ghost use Rattle.fetch.specs.Running.{Runs};
ghost use Rattle.opcode.specs.Programs.{instruction_of};
ghost use Rattle.outcome.specs.Meets.{stepped};
ghost use Rattle.outcome.specs.declared.Part.TheVariants.{More};
ghost use Rattle.dispatch.specs.Dispatch.{Dispatches, Steps, Held};

use fetch::Running;
use opcode::{Change, Deferred, Lookup, Opcode};
use outcome::{Part, Stepped, left_to_do, went};
use readops::constants;
use stackops::operators::{
    BitAnd, BitOr, BitXor, Div, Gt, GtEq, Lt, LtEq, Mod, Mul, ShiftLeft, ShiftRight, Sub,
};
use stackops::{arithmetic, comparison, control, locals};
use stacks::Depths;
use texts::Texts;

// Left whole.
fn defer(op: Deferred, d: Depths) -> Stepped
    ensures { result ≡ stepped d (More op) }
{
    left_to_do(Part::More(op), d)
}

// The instructions on the stacks that are run most, in one place; the others are left whole to `finish`.
pub fn execute_opcode(
    op: Opcode,
    x: Running,
    d: Depths,
    code: &[u8],
    n: usize,
    places: &[u16],
    stacks: &mut [u64],
    texts: &Texts,
) -> Stepped
    requires ready { Ready d stacks.old }
    requires runs { Runs x d stacks.old }
    requires n_in_bounds { n ≤ length code.now }
    ensures { Dispatches (Held x n code.now places.now texts.now) x (instruction_of op) d stacks.old result stacks.new }
{
    match op {
        Opcode::LoadConst => constants::load_const(x, d, code, n, places, stacks),
        Opcode::LoadLocal => locals::load_local(x, d, code, n, stacks),
        Opcode::StoreLocal => locals::store_local(x, d, code, n, stacks),
        Opcode::Add => constants::add(d, texts, stacks),
        Opcode::Sub => arithmetic::compute::<Sub>(d, texts, stacks),
        Opcode::Mul => arithmetic::compute::<Mul>(d, texts, stacks),
        Opcode::Div => arithmetic::compute::<Div>(d, texts, stacks),
        Opcode::Mod => arithmetic::compute::<Mod>(d, texts, stacks),
        Opcode::Neg => arithmetic::neg(d, texts, stacks),
        Opcode::Not => arithmetic::not(d, texts, stacks),
        Opcode::BitAnd => arithmetic::compute::<BitAnd>(d, texts, stacks),
        Opcode::BitOr => arithmetic::compute::<BitOr>(d, texts, stacks),
        Opcode::BitXor => arithmetic::compute::<BitXor>(d, texts, stacks),
        Opcode::ShiftLeft => arithmetic::compute::<ShiftLeft>(d, texts, stacks),
        Opcode::ShiftRight => arithmetic::compute::<ShiftRight>(d, texts, stacks),
        Opcode::Eq => comparison::equality::<false, true>(d, texts, stacks),
        Opcode::StrictEq => comparison::equality::<true, true>(d, texts, stacks),
        Opcode::NotEq => comparison::equality::<false, false>(d, texts, stacks),
        Opcode::StrictNotEq => comparison::equality::<true, false>(d, texts, stacks),
        Opcode::Lt => comparison::compare::<Lt>(d, texts, stacks),
        Opcode::Gt => comparison::compare::<Gt>(d, texts, stacks),
        Opcode::LtEq => comparison::compare::<LtEq>(d, texts, stacks),
        Opcode::GtEq => comparison::compare::<GtEq>(d, texts, stacks),
        Opcode::LogicalAnd => comparison::logical::<true>(d, texts, stacks),
        Opcode::LogicalOr => comparison::logical::<false>(d, texts, stacks),
        Opcode::Jump => control::jump(x, d, code, n),
        Opcode::JumpIfFalse => control::jump_if::<false>(x, d, code, n, texts, stacks),
        Opcode::JumpIfTrue => control::jump_if::<true>(x, d, code, n, texts, stacks),
        Opcode::Return => control::return_value(d, stacks),
        Opcode::GetThis => locals::get_this(d, stacks),
        Opcode::Instanceof | Opcode::In => comparison::never(d, stacks),
        Opcode::Throw => control::throw(d, stacks),
        Opcode::EnterTry => control::enter_try(x, d, code, n, stacks),
        Opcode::LeaveTry => control::leave_try(d),
        Opcode::Pop => locals::pop(d, stacks),
        Opcode::Dup => locals::dup(d, stacks),
        Opcode::Halt => control::halt(d, stacks),
        Opcode::LoadGlobal => defer(Deferred::Lookup(Lookup::LoadGlobal), d),
        Opcode::StoreGlobal => defer(Deferred::Change(Change::StoreGlobal), d),
        Opcode::LoadProperty => defer(Deferred::Lookup(Lookup::LoadProperty), d),
        Opcode::StoreProperty => defer(Deferred::Change(Change::StoreProperty), d),
        Opcode::LoadIndex => defer(Deferred::Lookup(Lookup::LoadIndex), d),
        Opcode::StoreIndex => defer(Deferred::Change(Change::StoreIndex), d),
        Opcode::Call => defer(Deferred::Lookup(Lookup::Call), d),
        Opcode::CreateClosure => defer(Deferred::Lookup(Lookup::CreateClosure), d),
        Opcode::CreateObject => defer(Deferred::Change(Change::CreateObject), d),
        Opcode::CreateArray => defer(Deferred::Change(Change::CreateArray), d),
        Opcode::Typeof => defer(Deferred::Change(Change::Typeof), d),
    }
}

// The instruction of a byte; one that names none is left to `finish` too.
pub fn execute(
    op: u8,
    x: Running,
    d: Depths,
    code: &[u8],
    n: usize,
    places: &[u16],
    stacks: &mut [u64],
    texts: &Texts,
) -> Stepped
    requires ready { Ready d stacks.old }
    requires runs { Runs x d stacks.old }
    requires n_in_bounds { n ≤ length code.now }
    ensures { Dispatches (Held x n code.now places.now texts.now) x (instruction op) d stacks.old result stacks.new }
{
    match Opcode::from_byte(op) {
        Some(op) => execute_opcode(op, x, d, code, n, places, stacks, texts),
        None => defer(Deferred::Unknown(op), d),
    }
}

// A step, as far as it is one on the stacks.
pub fn step(
    x: Running,
    d: Depths,
    code: &[u8],
    n: usize,
    places: &[u16],
    stacks: &mut [u64],
    texts: &Texts,
) -> Stepped
    requires ready { Ready d stacks.old }
    requires runs { (d.frames ≡ 0 → ⊥) → Runs x d stacks.old }
    requires n_in_bounds { n ≤ length code.now }
    ensures { Steps (Held x n code.now places.now texts.now) x d stacks.old result stacks.new }
{
    if d.frames == 0 {
        return control::halt(d, stacks);
    }
    let Some((op, e)) = fetch::fetch(x, d, code, n) else {
        return went(d.pop_frame(stacks));
    };
    execute(op as u8, x, e, code, n, places, stacks, texts)
}
