// The decoders: what a field's value says, as a line of a grid. Each is handed the value as a part of the caller's bytes.
// Assumes nothing.
ghost use Rattle.std.specs.Prelude.{◌≤◌, length};
ghost use Rattle.table.specs.Limits.{most};
ghost use Rattle.table.specs.Grid.{IsLine, LineOf};
ghost use Rattle.stored.specs.Field.{subsystem_length, task_length};
ghost use Rattle.stored.specs.Decode.{decoded_subsystem, decoded_task};
ghost use Rattle.stored.specs.HeadLine.{HeadLine};

use crate::fields::COUNT_AT;
use crate::number::{NUMBER, number_at};
use table::grid::LINE;

// Where the second and the third number of a value stand.
const SECOND: usize = NUMBER;

const THIRD: usize = 2 * NUMBER;
// The length of a task's value without its accesses.
pub const TASK_START: usize = 3 * NUMBER;

// A subsystem's numbers, into its line; the rest of the line stays as it was.
pub fn decode_subsystem(value: &[u8], line: &mut [u32; LINE])
    requires subsystem_length_in_bounds { subsystem_length ≤ length value.now }
    requires line { IsLine line.old }
    ensures { HeadLine (decoded_subsystem value.now) line.new × IsLine line.new }
{
    line[0] = number_at(value, 0);
    line[1] = number_at(value, SECOND);
    line[2] = u32::from(value[COUNT_AT]);
}

// A task's times and its access to each of m resources, into its line; the rest of the line stays as it was.
pub fn decode_task(value: &[u8], m: usize, line: &mut [u32; LINE])
    requires m_le_most { (m ≤ most) × (task_length m ≤ length value.now) }
    requires line { IsLine line.old }
    ensures { LineOf m (decoded_task m value.now) line.new × IsLine line.new }
{
    line[0] = number_at(value, 0);
    line[1] = number_at(value, SECOND);
    line[2] = number_at(value, THIRD);
    for l in 0..m {
        line[l + 3] = number_at(value, TASK_START + NUMBER * l);
    }
}
