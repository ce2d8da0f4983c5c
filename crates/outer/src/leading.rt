// Which resources decide a job's response. Of those with one outer ceiling only the one that is held longest does, the lowest
// where several are: the others' job ends come before its end. So one search for each ceiling is enough.
ghost use Rattle.std.specs.Prelude.{◌≡◌, ◌+◌, ◌<◌, ◌≤◌, length};
ghost use Rattle.lists.specs.Range.{padded};
ghost use Rattle.table.specs.Limits.{most};
ghost use Rattle.outer.specs.Interfaces.{held_at};
ghost use Rattle.outer.specs.Leading.{ceiling_at, led};

use crate::interfaces::{Lines, held};
use table::Table;

// Resource l joins those before it. Where none of them decides at its ceiling, it does; where one does, it takes that one's place
// only if it is held longer. Where it is not held, nothing changes.
fn with_resource(
    deciding: &mut [u32; Table::MOST],
    lines: &Lines,
    s: usize,
    ceilings: &[usize],
    l: usize,
)
    requires s_lt_most { (s < most) × (length ceilings.now ≤ most) × (l < length ceilings.now) }
    requires deciding_value { deciding.old ≡ padded (led (held_at lines.now s) (ceiling_at ceilings.now) l) 0 most l }
    ensures { deciding.new ≡ padded (led (held_at lines.now s) (ceiling_at ceilings.now) (l + 1)) 0 most (l + 1) }
{
    let x = held(lines, s, l);
    if x == 0 {
        return;
    }
    for j in 0..l {
        if ceilings[j] == ceilings[l] && deciding[j] != 0 {
            if deciding[j] < x {
                deciding[j] = 0;
                deciding[l] = x;
            }
            return;
        }
    }
    deciding[l] = x;
}

// The holding times of the resources that decide, 0 for the others.
pub fn leading(lines: &Lines, s: usize, ceilings: &[usize]) -> [u32; Table::MOST]
    requires { (s < most) × (length ceilings.now ≤ most) }
    ensures { result ≡ padded (led (held_at lines.now s) (ceiling_at ceilings.now) (length ceilings.now)) 0 most (length ceilings.now) }
{
    let mut deciding = [0u32; Table::MOST];
    for l in 0..ceilings.len() {
        with_resource(&mut deciding, lines, s, ceilings, l);
    }
    deciding
}
