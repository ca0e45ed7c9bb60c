//! Constants that are no functions, names, and the sum of two numbers.
ghost use Rattle.std.specs.Prelude.{◌≡◌, ◌≤◌, ◌<◌, length};
ghost use Rattle.std.proofs.Math.ListN.{get_elem?};
ghost use Rattle.machine.specs.Instruction.{LoadConst, CreateClosure, Add, get_string_constant};
ghost use Rattle.machine.specs.Convert.{is_text};
ghost use Rattle.value.specs.Words.{value_of};
ghost use Rattle.machine.specs.NumberText.{longest_text};
ghost use Rattle.texts.specs.Spells.{Spells};
ghost use Rattle.image.specs.View.{constants_of};
ghost use Rattle.stacks.specs.View.{Ready};
ghost use Rattle.outcome.specs.Meets.{Meets};
ghost use Rattle.fetch.specs.Running.{Runs, Holding};
ghost use Rattle.readops.specs.Holds.{Constants};

use fetch::{Running, cut_short, fetch_word};
use number::format::LONGEST_TEXT;
use outcome::{Part, Stepped, left_to_do, pop_two, push_value, underflow};
use reader::Constant;
use stacks::Depths;
use texts::{Source, Texts};
use value::Value;

pub fn load_const(
    x: Running,
    d: Depths,
    code: &[u8],
    n: usize,
    places: &[u16],
    stacks: &mut [u64],
) -> Stepped
    requires ready { Ready d stacks.old }
    requires runs { Runs x d stacks.old }
    requires n_in_bounds { n ≤ length code.now }
    ensures { Meets (Constants x n code.now places.now) LoadConst d stacks.old result stacks.new }
{
    let Some((i, e)) = fetch_word(x, d, code, n) else {
        return cut_short(x, d);
    };
    match image::constant_at(code, places, x.shape, i) {
        Some(Constant::Number(v)) => push_value(e, stacks, Value::Number(v)),
        Some(Constant::Str(at, size)) => push_value(e, stacks, Value::CodeText(at, size)),
        Some(Constant::Bool(b)) => push_value(e, stacks, Value::Boolean(b)),
        Some(Constant::Null) => push_value(e, stacks, Value::Null),
        Some(Constant::Undefined) => push_value(e, stacks, Value::Undefined),
        None => push_value(e, stacks, Value::Undefined),
        Some(Constant::Function(t)) => left_to_do(Part::Register(x.image, t), e),
    }
}

pub fn create_closure(
    x: Running,
    d: Depths,
    code: &[u8],
    n: usize,
    places: &[u16],
    stacks: &mut [u64],
) -> Stepped
    requires ready { Ready d stacks.old }
    requires runs { Runs x d stacks.old }
    requires n_in_bounds { n ≤ length code.now }
    ensures { Meets (Constants x n code.now places.now) CreateClosure d stacks.old result stacks.new }
{
    let Some((i, e)) = fetch_word(x, d, code, n) else {
        return cut_short(x, d);
    };
    let Some(Constant::Function(t)) = image::constant_at(code, places, x.shape, i) else {
        return push_value(e, stacks, Value::Undefined);
    };
    left_to_do(Part::Register(x.image, t), e)
}

// `get_string_constant`: a text constant, else the operand in decimal.
pub fn name<'b>(
    x: Running,
    code: &[u8],
    places: &[u16],
    i: usize,
    buffer: &'b mut [u8; LONGEST_TEXT],
) -> Source<'b>
    requires { (i < 65536) × (length buffer.old ≡ longest_text) }
    ensures { Spells (λ m. get_string_constant m i (get_elem? (constants_of code.now places.now x.shape.constants x.shape.constant_count) i)) result }
{
    let Some(Constant::Str(at, size)) = image::constant_at(code, places, x.shape, i) else {
        return arrays::element_key(i, buffer);
    };
    Source::Code(at, size)
}

pub fn is_text(v: Value) -> bool
    ensures { result ≡ is_text (value_of v) }
{
    matches!(v, Value::CodeText(_, _) | Value::MadeText(_, _))
}

pub fn add(d: Depths, texts: &Texts, stacks: &mut [u64]) -> Stepped
    requires { Ready d stacks.old }
    ensures { Meets (Holding texts.now) Add d stacks.old result stacks.new }
{
    let Some((a, b, e)) = pop_two(d, stacks) else {
        return underflow(d);
    };
    if is_text(a) || is_text(b) {
        return left_to_do(Part::Join(a, b), e);
    }
    let u = convert::to_number(texts, a);
    let v = convert::to_number(texts, b);
    push_value(e, stacks, Value::Number((u + v).bits))
}
