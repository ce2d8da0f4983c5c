// Steps 3 to 5 for one subsystem: task blocking, passing, and the first failing task. The subsystem is one of an admitted
// table, which `Ready` says. Every function here is proved, and the crate assumes nothing of its own.
#![tactic(auto)]

ghost use Rattle.std.specs.Prelude.{◌≡◌, ◌<◌};
ghost use Rattle.lists.specs.Range.{padded};
ghost use Rattle.table.specs.Limits.{most};
ghost use Rattle.table.specs.Grid.{count_in, subsystem_in};
ghost use Rattle.holding.specs.Holding.{resource_holding};
ghost use Rattle.local.specs.Blocking.{task_blocking};
ghost use Rattle.local.specs.Passing.{task_passes, first_failing};
ghost use Rattle.local.specs.Ready.{Ready, TakenOut};

use holding::Part;
use least::LoadList;
use supply::Share;
use table::Table;
use table::grid::{budget, count, deadline, period, separation, work};

pub mod blocking;
pub mod passing;

// Whether task i passes, from its blocking and the numbers of the tasks above it.
fn task_passes(part: &Part, end: u32, i: usize, blocked: u32, tasks: &LoadList) -> bool
    requires ready { Ready part.now.block.now part.now.m end }
    requires i_bound { i < count_in part.now.block.now }
    requires blocked_value { blocked ≡ task_blocking part.now.m (subsystem_in part.now.m part.now.block.now) i }
    requires taken_out { TakenOut part.now.block.now tasks.now.periods.now tasks.now.costs.now i }
    ensures { result ≡ task_passes part.now.m (subsystem_in part.now.m part.now.block.now) end i }
{
    let constant = u64::from(blocked) + u64::from(work(part.block, i));
    let share = Share {
        period: period(part.block),
        budget: budget(part.block),
        end,
    };
    passing::held_within(tasks, i, constant, deadline(part.block, i), &share)
}

// The first failing task of a subsystem, from the holding times of the resources in use, whose budget is given among a
// period's first `end` ticks: 1 for the first task, 0 where every task passes, as the row's figure has it. Each task that
// passes joins those that the next ones wait for.
pub fn first_failing_task(part: &Part, held: &[u64; Table::MOST], end: u32) -> u8
    requires ready { Ready part.now.block.now part.now.m end }
    requires held_value { held.now ≡ padded (resource_holding (subsystem_in part.now.m part.now.block.now)) 0 most part.now.m }
    ensures { result ≡ first_failing part.now.m (subsystem_in part.now.m part.now.block.now) end }
{
    let blockings = blocking::task_blockings(part, held);
    let mut separations = [0u32; Table::MOST];
    let mut works = [0u32; Table::MOST];
    for i in 0..count(part.block) {
        let tasks = LoadList {
            periods: &separations,
            costs: &works,
        };
        if !task_passes(part, end, i, blockings[i], &tasks) {
            return (i + 1) as u8;
        }
        separations[i] = separation(part.block, i);
        works[i] = work(part.block, i);
    }
    0
}
