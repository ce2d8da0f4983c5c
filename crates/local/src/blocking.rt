// Step 3: how long a task below can hold up a task, by the accesses themselves. All tasks of a subsystem are served at once, resource
// by resource. Every function here is proved, and the file assumes nothing.
ghost use Rattle.std.specs.Prelude.{◌≡◌};
ghost use Rattle.lists.specs.Range.{padded};
ghost use Rattle.table.specs.Limits.{most};
ghost use Rattle.table.specs.Grid.{count_in, subsystem_in};
ghost use Rattle.holding.specs.Holding.{resource_holding};
ghost use Rattle.local.specs.Blocking.{task_blocking};

use holding::{Part, inner_ceiling};
use table::Table;
use table::grid::{access, count};
use table::slots::raise_behind;

// b(i) of each task, and zeros behind them. One task alone waits for none, and no task accesses a resource whose holding time is 0.
pub fn task_blockings(part: &Part, held: &[u64; Table::MOST]) -> [u32; Table::MOST]
    requires { held.now ≡ padded (resource_holding (subsystem_in part.now.m part.now.block.now)) 0 most part.now.m }
    ensures { result ≡ padded (task_blocking part.now.m (subsystem_in part.now.m part.now.block.now)) 0 most (count_in part.now.block.now) }
{
    let mut blockings = [0u32; Table::MOST];
    let n = count(part.block);
    if n == 1 {
        return blockings;
    }
    // Resource l joins those before it: from its inner ceiling on, a task waits for the longest access of those below it.
    for l in 0..part.m {
        if held[l] != 0 {
            let access_by = move |i: usize| access(part.block, i, l);
            raise_behind(&mut blockings, n, inner_ceiling(part, l), access_by);
        }
    }
    blockings
}
