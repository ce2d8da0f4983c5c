// Step 5 on plain numbers: whether some window of at most the deadline is sure to hold a task's need. The tasks above come
// as loads, their separations the periods and their works the costs, of which the first i count. Every function here is
// proved, and the file assumes nothing.
ghost use Rattle.std.specs.Prelude.{◌≡◌, ◌+◌, ◌≤◌, ◌<◌, ◌^◌, min};
ghost use Rattle.least.specs.Demand.{total};
ghost use Rattle.least.specs.Search.{Loads, reach};
ghost use Rattle.supply.specs.Moment.{moment_of};
ghost use Rattle.local.specs.Passing.{held_within};

use least::LoadList;
use supply::Share;

// What is needed in x ticks: the constant part, blocking and the task's own work, and what the first i tasks ask for.
pub fn need_in(tasks: &LoadList, i: usize, constant: u64, x: u32) -> u64
    requires loads { Loads tasks.now.periods.now tasks.now.costs.now i }
    requires constant_bound { (constant < 2 ^ 48) × (1 ≤ x) × (x < reach) }
    ensures { result ≡ total tasks.now.periods.now tasks.now.costs.now i constant x }
{
    constant + tasks.demand_in(i, x)
}

// The first moment whose supply is at least a need; one tick past the deadline where it lies beyond that: a number that the search
// compares like any other.
pub fn moment_within(share: &Share, deadline: u32, need: u64) -> u32
    requires { (deadline < reach) × (1 ≤ need) }
    ensures { result ≡ min (moment_of share.now.period share.now.budget share.now.end need) (deadline + 1) }
{
    let last = u64::from(deadline);
    if last < need {
        return deadline + 1;
    }
    let moment = share.moment_of(need as u32);
    (last + 1).min(moment) as u32
}

// Whether the need is held at some moment from 1 to the deadline. A moment that will not do names the next that might,
// so the search need not stand at every moment; what it answers is about all of them.
pub fn held_within(tasks: &LoadList, i: usize, constant: u64, deadline: u32, share: &Share) -> bool
    requires loads { Loads tasks.now.periods.now tasks.now.costs.now i }
    requires le_constant { (1 ≤ constant) × (constant < 2 ^ 48) × (deadline < reach) }
    ensures { result ≡ held_within (total tasks.now.periods.now tasks.now.costs.now i constant) share.now.period share.now.budget share.now.end deadline }
{
    let mut x: u32 = 1;
    // Not a `for`: x goes on by what was found, not by one.
    while x <= deadline {
        let need = need_in(tasks, i, constant, x);
        let next = moment_within(share, deadline, need);
        if next <= x {
            return true;
        }
        x = next;
    }
    false
}
