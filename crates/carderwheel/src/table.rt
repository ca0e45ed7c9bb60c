//! The table of opcodes, a row at a time.
ghost use Rattle.std.specs.Prelude.{◌≡◌};
ghost use Rattle.machine.specs.Opcodes.{row_for};
ghost use Rattle.opcode_table.specs.Rows.{row_by};

use opcode_table::Row;

#[unsafe(no_mangle)]
pub extern "C" fn carderwheel_opcode_in(byte: u64) -> Row
    ensures { row_by result ≡ row_for byte }
{
    opcode_table::opcode(byte)
}
