//! The table of opcodes: for each byte the operand bytes that follow, the least operands taken, and the operands pushed. docs/OPCODES.md is a sheet of it.
#![tactic(auto)]

mod table;

ghost use Rattle.std.specs.Prelude.{◌≡◌};
ghost use Rattle.machine.specs.Opcodes.{row_for};
ghost use Rattle.opcode_table.specs.Rows.{row_by};

use table::OPCODES;

#[repr(C)]
#[derive(Clone, Copy)]
pub struct Row {
    pub bytes: u64,
    pub taken: u64,
    pub pushed: u64,
}

/// The row of a byte. Any other number has that of an unknown opcode.
pub fn opcode(b: u64) -> Row
    ensures { row_by result ≡ row_for b }
{
    if b > 255 {
        return Row {
            bytes: 255,
            taken: 255,
            pushed: 255,
        };
    }
    let k = 3 * (b as usize);
    Row {
        bytes: OPCODES[k] as u64,
        taken: OPCODES[k + 1] as u64,
        pushed: OPCODES[k + 2] as u64,
    }
}
