//! The rest of a Call whose callee is an object, known or not: its arguments are printed.
ghost use Rattle.std.specs.Prelude.{◌≡◌, List, ℕ, ◌+◌, ◌≤◌, length};
ghost use Rattle.machine.specs.State.{operand_limit};
ghost use Rattle.stacks.specs.View.{Ready, arguments};
ghost use Rattle.texts.specs.Keeps.{output_limit};
ghost use Rattle.texts.specs.Sources.{InUse};
ghost use Rattle.outcome.specs.Meets.{prints};
ghost use Rattle.heapops.specs.Turns.{Turns, mem, Loaded};

use crate::{Counts, Turned, refused, settle_push};
use texts::Texts;
use value::{Space, Value};

pub fn print<'a>(
    c: Counts,
    argc: usize,
    code: &'a [u8],
    stacks: &mut [u64],
    text: &'a [u8],
    output: &mut [u8],
) -> Turned
    requires ready { Ready c.depths stacks.old }
    requires argc_bound { c.depths.operands + 1 + argc ≤ operand_limit }
    requires in_use { InUse code.now c.code text.now c.text }
    requires output_le_output_limit { (c.output ≤ output_limit) × (length output.old ≡ output_limit) }
    ensures { (h : List ℕ) → Turns (Loaded c.code code.now) (prints (arguments stacks.old (c.depths.operands + 1) argc)) c (mem stacks.old h text.now output.old) result (mem stacks.new h text.now output.new) }
{
    let d = c.depths;
    let from = d.operands + 1;
    let texts = Texts::new(code, c.code, text, c.text);
    let printed = texts::output::print(&texts, stacks, from, argc, output, c.output);
    let Some(o) = printed else {
        return refused(c, Space::Output);
    };
    let r = d.push(stacks, Value::Undefined);
    settle_push(Counts { output: o, ..c }, r)
}
