//! The image writer's calls: the buffer as a slice, the writer by value. No call keeps either.
ghost use Rattle.std.specs.Prelude.{◌≡◌, List, ℕ};
ghost use Rattle.machine.specs.Format as F;
ghost use Rattle.machine.specs.Writer as W;
ghost use Rattle.value.specs.Words.{truth};
ghost use Rattle.answers.specs.Written.{TellsWrite};

use answers::{WriteTold, written};
use writer::Writer;

#[unsafe(no_mangle)]
pub extern "C" fn carderwheel_write_begin_in(buffer: &mut [u8], w: Writer) -> WriteTold
    ensures { TellsWrite W.begin w buffer.old result buffer.new }
{
    written(w, Writer::begin(buffer))
}

#[unsafe(no_mangle)]
pub extern "C" fn carderwheel_write_template_in(
    buffer: &mut [u8],
    w: Writer,
    parameters: u64,
    locals: u64,
) -> WriteTold
    ensures { TellsWrite (W.template parameters locals) w buffer.old result buffer.new }
{
    written(w, w.template(buffer, parameters, locals))
}

#[unsafe(no_mangle)]
pub extern "C" fn carderwheel_write_number_in(buffer: &mut [u8], w: Writer, bits: u64) -> WriteTold
    ensures { TellsWrite (W.constant (F.number bits)) w buffer.old result buffer.new }
{
    written(w, w.number(buffer, bits))
}

#[unsafe(no_mangle)]
pub extern "C" fn carderwheel_write_text_in(buffer: &mut [u8], w: Writer, bytes: &[u8]) -> WriteTold
    ensures { TellsWrite (W.constant (F.text bytes.now)) w buffer.old result buffer.new }
{
    written(w, w.text(buffer, bytes))
}

// A boolean that C gives: 0 is false, anything else true.
#[unsafe(no_mangle)]
pub extern "C" fn carderwheel_write_boolean_in(
    buffer: &mut [u8],
    w: Writer,
    value: u64,
) -> WriteTold
    ensures { TellsWrite (W.constant (F.boolean (truth value))) w buffer.old result buffer.new }
{
    written(w, w.boolean(buffer, value != 0))
}

#[unsafe(no_mangle)]
pub extern "C" fn carderwheel_write_null_in(buffer: &mut [u8], w: Writer) -> WriteTold
    ensures { TellsWrite (W.constant F.null) w buffer.old result buffer.new }
{
    written(w, w.null(buffer))
}

#[unsafe(no_mangle)]
pub extern "C" fn carderwheel_write_undefined_in(buffer: &mut [u8], w: Writer) -> WriteTold
    ensures { TellsWrite (W.constant F.undefined) w buffer.old result buffer.new }
{
    written(w, w.undefined(buffer))
}

#[unsafe(no_mangle)]
pub extern "C" fn carderwheel_write_function_in(
    buffer: &mut [u8],
    w: Writer,
    template: u64,
) -> WriteTold
    ensures { TellsWrite (W.constant (F.function template)) w buffer.old result buffer.new }
{
    written(w, w.function(buffer, template))
}

#[unsafe(no_mangle)]
pub extern "C" fn carderwheel_write_code_in(buffer: &mut [u8], w: Writer, bytes: &[u8]) -> WriteTold
    ensures { TellsWrite (W.code bytes.now) w buffer.old result buffer.new }
{
    written(w, w.code(buffer, bytes))
}

#[unsafe(no_mangle)]
pub extern "C" fn carderwheel_write_finish_in(w: Writer) -> WriteTold
    ensures { (b : List ℕ) → TellsWrite W.finish w b result b }
{
    written(w, w.finish())
}
