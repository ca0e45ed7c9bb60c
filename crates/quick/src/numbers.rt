//! Two operands that are numbers. The result stands where the older one stood: its kind is there already.
ghost use Rattle.std.specs.Prelude.{◌≡◌, ◌+◌, ◌-◌, ◌*◌, ◌≤◌, ◌<◌, length, get_or, set};
ghost use Rattle.value.specs.Words.{bit, words_of};
ghost use Rattle.value.specs.declared.Value.TheVariants.{Boolean};
ghost use Rattle.stacks.specs.Laws.{with_operands};
ghost use Rattle.stacks.specs.View.{Ready};
ghost use Rattle.outcome.specs.Meets.{Any};
ghost use Rattle.quick.specs.Quickly.{Quickly};
ghost use Rattle.quick.specs.Stays.{Stays};
ghost use Rattle.quick.specs.Numbers.{FindsNumbers};

use number::JsNumber;
use stackops::operators::{Arithmetic, Comparison};
use stacks::Depths;
use value::Words;

fn find_numbers(d: Depths, stacks: &[u64]) -> Option<usize>
    requires { Ready d stacks.now }
    ensures { FindsNumbers d stacks.now result }
{
    let n = d.operands;
    if n < 2 {
        return None;
    }
    let k = 3 * (n - 2);
    if stacks[k] != Words::NUMBER || stacks[k + 3] != Words::NUMBER {
        return None;
    }
    Some(k)
}

fn number_at(stacks: &[u64], k: usize) -> JsNumber
    requires { k + 1 < length stacks.now }
    ensures { result.bits ≡ get_or stacks.now (k + 1) 0 }
{
    JsNumber {
        bits: stacks[k + 1],
    }
}

fn put_number(d: Depths, stacks: &mut [u64], k: usize, v: JsNumber) -> Depths
    requires { (k + 1 < length stacks.old) × (1 ≤ d.operands) }
    ensures value { result ≡ with_operands (d.operands - 1) d }
    ensures stacks_after { stacks.new ≡ set stacks.old (k + 1) v.bits }
{
    stacks[k + 1] = v.bits;
    d.with_operands(d.operands - 1)
}

fn put_bool(d: Depths, stacks: &mut [u64], k: usize, v: bool) -> Depths
    requires { (k + 1 < length stacks.old) × (1 ≤ d.operands) }
    ensures value { result ≡ with_operands (d.operands - 1) d }
    ensures stacks_after { stacks.new ≡ set (set stacks.old k (words_of (Boolean v)).kind) (k + 1) (bit v) }
{
    stacks[k] = Words::BOOLEAN;
    stacks[k + 1] = u64::from(v);
    d.with_operands(d.operands - 1)
}

/// Add of two numbers, Sub, Mul and Div.
pub fn compute<O: Arithmetic>(d: Depths, stacks: &mut [u64]) -> Option<Depths>
    requires { Ready d stacks.old }
    ensures quickly { Quickly Any O.instruction d stacks.old result stacks.new }
    ensures stays { Stays d stacks.old result stacks.new }
{
    let k = find_numbers(d, stacks)?;
    let a = number_at(stacks, k);
    let b = number_at(stacks, k + 3);
    Some(put_number(d, stacks, k, O::apply(a, b)))
}

/// Lt, Gt, LtEq and GtEq.
pub fn compare<O: Comparison>(d: Depths, stacks: &mut [u64]) -> Option<Depths>
    requires { Ready d stacks.old }
    ensures quickly { Quickly Any O.instruction d stacks.old result stacks.new }
    ensures stays { Stays d stacks.old result stacks.new }
{
    let k = find_numbers(d, stacks)?;
    let a = number_at(stacks, k);
    let b = number_at(stacks, k + 3);
    Some(put_bool(d, stacks, k, O::apply(a, b)))
}
