//! The operators on two numbers, one type each: what an instruction computes, for the function that makes it here and for the one in crate quick.
ghost use Rattle.std.specs.Prelude.{◌≡◌, ℕ, Bool};
ghost use Rattle.machine.specs.Number as N;
ghost use Rattle.machine.specs.Value as M;
ghost use Rattle.machine.specs.Program.{Program};
ghost use Rattle.machine.specs.Instruction as I;
ghost use Rattle.stackops.specs.Operators.{OnNumbers, arithmetic_takes, comparison_takes, add_takes};

use number::JsNumber;

/// A number of two.
pub trait Arithmetic {
    ghost of: { ℕ → ℕ → ℕ };

    ghost instruction: { Program };

    fn apply(a: JsNumber, b: JsNumber) -> JsNumber
        ensures { result.bits ≡ of a.bits b.bits };

    ghost takes: { OnNumbers instruction (λ a b. M.number (of a b)) };
}

/// A boolean of two numbers.
pub trait Comparison {
    ghost of: { ℕ → ℕ → Bool };

    ghost instruction: { Program };

    fn apply(a: JsNumber, b: JsNumber) -> bool
        ensures { result ≡ of a.bits b.bits };

    ghost takes: { OnNumbers instruction (λ a b. M.boolean (of a b)) };
}

pub struct Add;

impl Arithmetic for Add {
    ghost of = { N.add };

    ghost instruction = { I.Add };

    fn apply(a: JsNumber, b: JsNumber) -> JsNumber {
        a + b
    }

    ghost takes = { add_takes };
}

pub struct Sub;

impl Arithmetic for Sub {
    ghost of = { N.sub };

    ghost instruction = { I.Sub };

    fn apply(a: JsNumber, b: JsNumber) -> JsNumber {
        a - b
    }

    ghost takes = { arithmetic_takes N.sub };
}

pub struct Mul;

impl Arithmetic for Mul {
    ghost of = { N.mul };

    ghost instruction = { I.Mul };

    fn apply(a: JsNumber, b: JsNumber) -> JsNumber {
        a * b
    }

    ghost takes = { arithmetic_takes N.mul };
}

pub struct Div;

impl Arithmetic for Div {
    ghost of = { N.div };

    ghost instruction = { I.Div };

    fn apply(a: JsNumber, b: JsNumber) -> JsNumber {
        a / b
    }

    ghost takes = { arithmetic_takes N.div };
}

pub struct Mod;

impl Arithmetic for Mod {
    ghost of = { N.rem };

    ghost instruction = { I.Mod };

    fn apply(a: JsNumber, b: JsNumber) -> JsNumber {
        a % b
    }

    ghost takes = { arithmetic_takes N.rem };
}

pub struct BitAnd;

impl Arithmetic for BitAnd {
    ghost of = { N.and };

    ghost instruction = { I.BitAnd };

    fn apply(a: JsNumber, b: JsNumber) -> JsNumber {
        a & b
    }

    ghost takes = { arithmetic_takes N.and };
}

pub struct BitOr;

impl Arithmetic for BitOr {
    ghost of = { N.or };

    ghost instruction = { I.BitOr };

    fn apply(a: JsNumber, b: JsNumber) -> JsNumber {
        a | b
    }

    ghost takes = { arithmetic_takes N.or };
}

pub struct BitXor;

impl Arithmetic for BitXor {
    ghost of = { N.xor };

    ghost instruction = { I.BitXor };

    fn apply(a: JsNumber, b: JsNumber) -> JsNumber {
        a ^ b
    }

    ghost takes = { arithmetic_takes N.xor };
}

pub struct ShiftLeft;

impl Arithmetic for ShiftLeft {
    ghost of = { N.shift_left };

    ghost instruction = { I.ShiftLeft };

    fn apply(a: JsNumber, b: JsNumber) -> JsNumber {
        a << b
    }

    ghost takes = { arithmetic_takes N.shift_left };
}

pub struct ShiftRight;

impl Arithmetic for ShiftRight {
    ghost of = { N.shift_right };

    ghost instruction = { I.ShiftRight };

    fn apply(a: JsNumber, b: JsNumber) -> JsNumber {
        a >> b
    }

    ghost takes = { arithmetic_takes N.shift_right };
}

pub struct Lt;

impl Comparison for Lt {
    ghost of = { λ a b. N.less a b };

    ghost instruction = { I.Lt };

    fn apply(a: JsNumber, b: JsNumber) -> bool {
        a.less(b)
    }

    ghost takes = { comparison_takes (λ a b. N.less a b) };
}

pub struct Gt;

impl Comparison for Gt {
    ghost of = { λ a b. N.less b a };

    ghost instruction = { I.Gt };

    fn apply(a: JsNumber, b: JsNumber) -> bool {
        b.less(a)
    }

    ghost takes = { comparison_takes (λ a b. N.less b a) };
}

pub struct LtEq;

impl Comparison for LtEq {
    ghost of = { λ a b. N.less_eq a b };

    ghost instruction = { I.LtEq };

    fn apply(a: JsNumber, b: JsNumber) -> bool {
        a.less_eq(b)
    }

    ghost takes = { comparison_takes (λ a b. N.less_eq a b) };
}

pub struct GtEq;

impl Comparison for GtEq {
    ghost of = { λ a b. N.less_eq b a };

    ghost instruction = { I.GtEq };

    fn apply(a: JsNumber, b: JsNumber) -> bool {
        b.less_eq(a)
    }

    ghost takes = { comparison_takes (λ a b. N.less_eq b a) };
}
