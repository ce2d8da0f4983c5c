// The largest response of a subsystem over every job of its active period (step 11). Every function here is proved, and the crate
// assumes nothing.
#![tactic(auto)]

mod room;

ghost use Rattle.std.specs.Prelude.{◌≡◌, ◌+◌, ◌-◌, ◌≤◌, IfSome};
ghost use Rattle.least.specs.Share.{unit, shares};
ghost use Rattle.job.specs.Computed.{worst_of};
ghost use Rattle.job.specs.Seen.{view_in};
ghost use Rattle.job.specs.Sound.{Counted, FirstEnd};
ghost use Rattle.responses.specs.Known.{Jobs, Ended};

use crate::room::{is_plain, may_be_worse, settled_from};
use job::{Seen, Worst, job_response, worse};
use least::standing;
use table::Table;

// What the higher subsystems leave free of every tick, in the parts of crate `least`, where there are many jobs, or some and the first has
// waited long, and each waits for so long that it pays to start its search by it: further than it would begin by more than twice what the
// higher ones ask for at once.
fn spare_for_jobs(seen: &Seen, n: u32, first: u32) -> Option<u64>
    ensures { IfSome result (λ spare. (1 ≤ spare) × (spare ≡ unit - shares seen.now.asking.loads.periods.now seen.now.asking.loads.costs.now seen.now.own.place)) }
{
    let own = &seen.own;
    let loads = &seen.asking.loads;
    if n < 2 {
        return None;
    }
    if n < 16 && u64::from(first / 8) < u64::from(own.blocking) + u64::from(own.budget) {
        return None;
    }
    let spare = loads.spare_of(own.place);
    if spare == 0 {
        return None;
    }
    let cost = loads.costs[own.place];
    let reached = u64::from(standing(cost, spare));
    let once = loads.demand_in(own.place, 1);
    if reached < u64::from(cost) + once + once {
        return None;
    }
    Some(spare)
}

// F(k + 1), searched from F(k), which is `end`, with Q + X more to wait for. `ends` holds where the higher subsystems' periods begun by
// F(k) end, and then by F(k + 1). Where the higher ones are known to leave `spare` free of every tick, that says where to begin.
fn next_end(seen: &Seen, k: u32, spare: Option<u64>, end: u32, ends: &mut [u32; Table::MOST]) -> u32
    requires counted { Counted (view_in seen.now) (k + 1) }
    requires spare_value { IfSome spare (λ spare. (1 ≤ spare) × (spare ≡ unit - shares seen.now.asking.loads.periods.now seen.now.asking.loads.costs.now seen.now.own.place)) }
    requires ended { Ended (view_in seen.now) k end ends.old }
    ensures { Ended (view_in seen.now) (k + 1) result ends.new }
{
    let own = &seen.own;
    let cost = seen.asking.loads.costs[own.place];
    // Two calls, of which the first is compiled to a search without a start: one call costs the loop over the jobs a fortieth more.
    let Some(spare) = spare else {
        return seen.asking.least_within(own.place, ends, end, cost, 0);
    };
    let start = standing(own.blocking + (k + 1) * cost + own.budget, spare);
    seen.asking.least_within(own.place, ends, end, cost, start)
}

// The largest response over the n jobs of the active period, the first job that has it, and that job's lowest resource. The
// first budget end is known; each other is searched from where the last one was found, with Q + X more to wait for. A job's own
// end is looked for only where there is room for a larger response, and none where no later job has room.
pub fn largest_response(
    seen: &Seen,
    n: u32,
    active: u32,
    first: u32,
    firsts: [u32; Table::MOST],
) -> Worst
    requires jobs { Jobs (view_in seen.now) active n }
    requires first_end { FirstEnd (view_in seen.now) firsts first }
    ensures { result ≡ worst_of (view_in seen.now) n }
{
    let own = seen.own;
    let cost = seen.asking.loads.costs[own.place];
    let mut worst = Worst {
        response: 0,
        job: 0,
        resource: 0,
    };
    let mut ends = firsts;
    let mut end = first;
    let mut k: u32 = 0;
    let free = own.period - cost;
    let last = n - 1;
    let room = active - last * cost;
    let plain = is_plain(seen.holdings, seen.ceilings, n);
    let spare = spare_for_jobs(seen, n, first);
    let mut until = last;
    // No `for`: `until` may come down in any turn.
    while k < until {
        let then = ends;
        let next = next_end(seen, k, spare, end, &mut ends);
        let sure = end + (cost - own.budget);
        if may_be_worse(own, worst, plain, k, sure, next, &then) {
            let job = job_response(seen, k, end, then);
            worst = worse(worst, job, k);
            until = settled_from(worst, room, free, last);
        }
        end = next;
        k += 1;
    }
    if until < last {
        return worst;
    }
    let job = job_response(seen, k, end, ends);
    worse(worst, job, k)
}
