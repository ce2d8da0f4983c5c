// What is out of range or out of order, at one place. The counts are the caller's to have judged by rule 1; these functions ask for an
// index within the table's limits and no more, so they take no `Part`.
ghost use Rattle.std.specs.Prelude.{◌≡◌, ◌||◌, ◌≤◌, ◌<◌, ltb};
ghost use Rattle.lists.specs.Range.{largest_to};
ghost use Rattle.table.specs.Limits.{most, largest};
ghost use Rattle.table.specs.Grid.{period_in, budget_in, separation_in, work_in, deadline_in, access_in};
ghost use Rattle.rules.specs.Rules.{count_out, time_out};

use table::Table;
use table::grid::{Block, access, budget, deadline, period, separation, work};

// Whether a count is none of 1, 2, .., the most.
pub fn count_out(n: u8) -> bool
    ensures { result ≡ count_out n }
{
    n < 1 || Table::MOST < usize::from(n)
}

// Whether a time is none of 1, 2, .., the largest.
pub fn time_out(x: u32) -> bool
    ensures { result ≡ time_out x }
{
    x < 1 || Table::LARGEST < x
}

// Whether a subsystem's own times are out of range: rule 2.
pub fn own_out_of_range(block: &Block) -> bool
    ensures { result ≡ (time_out (period_in block.now) || time_out (budget_in block.now)) }
{
    time_out(period(block)) || time_out(budget(block))
}

// The longest access of task i to one of m resources.
pub fn longest_of_task(block: &Block, m: usize, i: usize) -> u32
    requires { (m ≤ most) × (i < most) }
    ensures { result ≡ largest_to (access_in block.now i) m }
{
    let mut longest: u32 = 0;
    for l in 0..m {
        // The longest so far stands last: that way round it compiles to a shorter loop (measured).
        longest = access(block, i, l).max(longest);
    }
    longest
}

// Whether a time of task i, or its longest access, is out of range: rule 2.
pub fn task_out_of_range(block: &Block, i: usize, longest: u32) -> bool
    requires { i < most }
    ensures { result ≡ (time_out (separation_in block.now i) || time_out (work_in block.now i) || time_out (deadline_in block.now i) || ltb largest longest) }
{
    time_out(separation(block, i))
        || time_out(work(block, i))
        || time_out(deadline(block, i))
        || Table::LARGEST < longest
}

// Whether the times of task i are out of order: rule 3.
pub fn task_out_of_order(block: &Block, i: usize) -> bool
    requires { i < most }
    ensures { result ≡ (ltb (deadline_in block.now i) (work_in block.now i) || ltb (separation_in block.now i) (deadline_in block.now i)) }
{
    deadline(block, i) < work(block, i) || separation(block, i) < deadline(block, i)
}
