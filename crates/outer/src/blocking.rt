// How long lower subsystems can hold up the higher ones. All are worked out at once, resource by resource.
ghost use Rattle.std.specs.Prelude.{◌≡◌, ◌+◌, ◌<◌};
ghost use Rattle.lists.specs.Range.{padded};
ghost use Rattle.table.specs.Limits.{most};
ghost use Rattle.outer.specs.Blocked.{ceiling_in, blocked_in};

use crate::interfaces::held;
use crate::shown::Shown;
use table::Table;

// Resource l joins those before it: from its ceiling on, a subsystem waits for the longest that one behind it holds l. From the last
// subsystem back, that longest is known on the way. `table::slots::raise_behind` with a closure would do the same, but then no edit of this
// crate could turn what is longest by one number (docs/DESIGN-PASS.md, point 2).
fn raise_by(shown: &Shown, l: usize, ceiling: usize, blockings: &mut [u32; Table::MOST])
    requires l_lt_most { (l < most) × (ceiling < shown.now.n) × (ceiling ≡ ceiling_in shown.now.lines.now shown.now.n l) }
    requires blockings_value { blockings.old ≡ padded (blocked_in shown.now.lines.now shown.now.n l) 0 most shown.now.n }
    ensures { blockings.new ≡ padded (blocked_in shown.now.lines.now shown.now.n (l + 1)) 0 most shown.now.n }
{
    let mut longest: u32 = 0;
    for s in (ceiling..shown.n - 1).rev() {
        longest = held(shown.lines, s + 1, l).max(longest);
        blockings[s] = longest.max(blockings[s]);
    }
}

// B(s) of each subsystem: the longest that a lower one holds a resource whose ceiling reaches s.
pub(crate) fn blockings_of(shown: &Shown, ceilings: [usize; Table::MOST]) -> [u32; Table::MOST]
    requires { ceilings ≡ padded (ceiling_in shown.now.lines.now shown.now.n) 0 most shown.now.m }
    ensures { result ≡ padded (blocked_in shown.now.lines.now shown.now.n shown.now.m) 0 most shown.now.n }
{
    let mut blockings = [0u32; Table::MOST];
    for l in 0..shown.m {
        raise_by(shown, l, ceilings[l], &mut blockings);
    }
    blockings
}
