//! Texts written where they are wanted: into a line of the output, or to the start of a caller's buffer.
ghost use Rattle.std.specs.Prelude.{◌≡◌, ◌++◌, ◌+◌, ◌*◌, ◌≤◌, length};
ghost use Rattle.machine.specs.Convert.{to_js_string};
ghost use Rattle.machine.specs.Instruction.{joined};
ghost use Rattle.number.specs.Layout.{Wrote};
ghost use Rattle.value.specs.Words.{value_of};
ghost use Rattle.texts.specs.Overwrite.{overwrite};
ghost use Rattle.texts.specs.Spells.{Writes};
ghost use Rattle.texts.specs.Keeps.{output_limit, Prints};
ghost use Rattle.texts.specs.Lines.{values_at, gap, MeasuresLine};

use crate::spell::Spelling;
use crate::{OUTPUT_LIMIT, Texts, copy};
use value::Value;

/// How many bytes the text of a value has.
fn size_of_value(texts: &Texts, v: Value) -> usize
    ensures { result ≡ length (to_js_string texts.now (value_of v)) }
{
    Spelling::of(v).size(texts)
}

/// The text of a value written at a place; answers the place behind it.
fn write_value(texts: &Texts, v: Value, dest: &mut [u8], at: usize) -> usize
    requires { at + length (to_js_string texts.now (value_of v)) ≤ length dest.old }
    ensures { Wrote (to_js_string texts.now (value_of v)) dest.old at dest.new result }
{
    Spelling::of(v).write(texts, dest, at)
}

// How many bytes the texts of `count` values from row `from` on have, with a blank between, unless they have more than the room.
fn line_size(texts: &Texts, stacks: &[u64], from: usize, count: usize, room: usize) -> Option<usize>
    requires { 3 * (from + count) ≤ length stacks.now }
    ensures { MeasuresLine texts.now stacks.now from count room result }
{
    let mut size = count.saturating_sub(1);
    if room < size {
        return None;
    }
    for i in 0..count {
        let k = size_of_value(texts, value::read(stacks, 3 * (from + i)));
        if room - size < k {
            return None;
        }
        size += k;
    }
    Some(size)
}

// Value i of a line: a blank first, unless it is the first value.
fn write_item(texts: &Texts, i: usize, v: Value, dest: &mut [u8], at: usize) -> usize
    requires { at + length (gap i ++ to_js_string texts.now (value_of v)) ≤ length dest.old }
    ensures { Wrote (gap i ++ to_js_string texts.now (value_of v)) dest.old at dest.new result }
{
    if i == 0 {
        return write_value(texts, v, dest, at);
    }
    dest[at] = b' ';
    write_value(texts, v, dest, at + 1)
}

fn write_line(
    texts: &Texts,
    stacks: &[u64],
    from: usize,
    count: usize,
    dest: &mut [u8],
    start: usize,
)
    requires count_in_bounds { 3 * (from + count) ≤ length stacks.now }
    requires fits { start + length (joined texts.now (values_at stacks.now from count)) ≤ length dest.old }
    ensures { dest.new ≡ overwrite dest.old start (joined texts.now (values_at stacks.now from count)) }
{
    let mut at = start;
    for i in 0..count {
        at = write_item(texts, i, value::read(stacks, 3 * (from + i)), dest, at);
    }
}

/// The values of `count` rows of operands printed as a line, after the o bytes of output in use: its length in two bytes, then their texts.
pub fn print(
    texts: &Texts,
    stacks: &[u64],
    from: usize,
    count: usize,
    output: &mut [u8],
    o: usize,
) -> Option<usize>
    requires count_in_bounds { 3 * (from + count) ≤ length stacks.now }
    requires o_le_output_limit { (o ≤ output_limit) × (length output.old ≡ output_limit) }
    ensures { Prints (joined texts.now (values_at stacks.now from count)) o output.old result output.new }
{
    if OUTPUT_LIMIT - o < 2 {
        return None;
    }
    let at = o + 2;
    let size = line_size(texts, stacks, from, count, OUTPUT_LIMIT - at)?;
    output[o] = (size / 256) as u8;
    output[o + 1] = (size % 256) as u8;
    write_line(texts, stacks, from, count, output, at);
    Some(at + size)
}

/// Bytes written to the start of a buffer, or that it is too short; the rest of it, and a buffer that is too short, stay as they are.
pub fn write_bytes(bytes: &[u8], buffer: &mut [u8]) -> Option<usize>
    ensures { Writes bytes.now buffer.old result buffer.new }
{
    let size = bytes.len();
    if buffer.len() < size {
        return None;
    }
    copy(buffer, 0, bytes);
    Some(size)
}

/// The same for the text of a value.
pub fn write_text(texts: &Texts, v: Value, buffer: &mut [u8]) -> Option<usize>
    ensures { Writes (to_js_string texts.now (value_of v)) buffer.old result buffer.new }
{
    let spelling = Spelling::of(v);
    if buffer.len() < spelling.size(texts) {
        return None;
    }
    Some(spelling.write(texts, buffer, 0))
}
