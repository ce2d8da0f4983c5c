// The row of a subsystem whose jobs end when they are done: it holds nothing, and they end with their budgets; or it holds one resource
// alone, which shuts no higher subsystem out. The active period ends with the first job that is done by the next one's release, so that it
// is found on the way from job to job and need not be searched for. Every function here is proved, and the crate assumes nothing.
#![tactic(auto)]

ghost use Rattle.std.specs.Prelude.{◌≡◌, true, ◌+◌, ◌-◌, ◌^◌, ◌≤◌, ◌<◌, length, IfSome};
ghost use Rattle.table.specs.Limits.{most};
ghost use Rattle.least.specs.Search.{reach};
ghost use Rattle.job.specs.Ends.{active_period};
ghost use Rattle.row.specs.Row.{row_for};
ghost use Rattle.job.specs.Seen.{view_in};
ghost use Rattle.job.specs.Sound.{FirstEnd};
ghost use Rattle.done.specs.Done.{FirstDone, EndsDone, Alone};

use job::{HORIZON, Job, Own, Seen, Worst, worse};
use row::{Row, row_with, row_without};
use table::Table;

// Whether nothing is held and the active period is not far: the jobs are gone through without further ado.
pub fn on_the_way(own: Own, cost: u32, far: bool) -> bool
    ensures { result ≡ true → cost ≡ own.budget }
{
    cost == own.budget && !far
}

// The resource that is held alone (`lone_resource`), where one is held and the active period is not far.
pub fn lone_on_the_way(
    holdings: &[u32],
    ceilings: &[usize],
    own: Own,
    cost: u32,
    far: bool,
) -> Option<usize>
    requires { (length holdings.now ≤ length ceilings.now) × (length holdings.now ≤ most) }
    ensures { IfSome result (λ l. Alone holdings.now ceilings.now own.place l) }
{
    if far || cost == own.budget {
        return None;
    }
    lone_resource(holdings, ceilings, own.place)
}

// Whether nothing is held and nearly all jobs have to be looked at, though the active period is known: those that need not be are
// some first / (P − Q), the last ones.
pub fn nearly_all(own: Own, cost: u32, first: u32, active: u32) -> bool
    requires { (cost ≤ own.period) × (own.period < 2 ^ 20) × (first < reach) × (active < reach) }
    ensures { result ≡ true → cost ≡ own.budget }
{
    cost == own.budget
        && u64::from(first) * u64::from(own.period) * 4
            <= u64::from(active) * u64::from(own.period - cost)
}

// The resource that is held, where it is the only one and shuts no higher subsystem out.
fn lone_resource(holdings: &[u32], ceilings: &[usize], s: usize) -> Option<usize>
    requires { (length holdings.now ≤ length ceilings.now) × (length holdings.now ≤ most) }
    ensures { IfSome result (λ l. Alone holdings.now ceilings.now s l) }
{
    let mut lone: Option<usize> = None;
    for (l, &held) in holdings.iter().enumerate() {
        if held != 0 {
            if lone.is_some() || ceilings[l] != s {
                return None;
            }
            lone = Some(l);
        }
    }
    lone
}

// The row of a subsystem whose jobs end when they are done, all with the same resource, counted from 1, 0 for none, from where job 0 is
// done. `release` is that of the next job.
pub fn row_by_jobs(seen: &Seen, first: u32, firsts: [u32; Table::MOST], resource: u32) -> Row
    requires ends_done { EndsDone (view_in seen.now) resource }
    requires first_done { FirstDone (view_in seen.now) firsts first }
    ensures { result ≡ row_for (view_in seen.now) seen.now.own.failing (active_period (view_in seen.now)) }
{
    let own = seen.own;
    let s = own.place;
    let more = seen.asking.loads.costs[s];
    let mut worst = Worst {
        response: first,
        job: 0,
        resource,
    };
    let mut ends = firsts;
    let mut end = first;
    let mut k: u32 = 0;
    let mut release = own.period;
    while release < end {
        let Some(next) = seen.asking.least_after(s, &mut ends, end, more, 0, HORIZON) else {
            return row_without(own, more);
        };
        end = next;
        k += 1;
        let response = end - release;
        let job = Job {
            end,
            response,
            resource,
        };
        worst = worse(worst, job, k);
        release += own.period;
    }
    row_with(own, more, end, k + 1, worst)
}

// The same from the end of the first budget, for a subsystem that holds one resource alone: job 0 is done with what it may hold besides.
pub fn row_alone(seen: &Seen, first: u32, firsts: [u32; Table::MOST], lone: usize) -> Row
    requires alone { Alone seen.now.holdings.now seen.now.ceilings.now seen.now.own.place lone }
    requires first_end { FirstEnd (view_in seen.now) firsts first }
    ensures { result ≡ row_for (view_in seen.now) seen.now.own.failing (active_period (view_in seen.now)) }
{
    let own = seen.own;
    let s = own.place;
    let asking = &seen.asking;
    let cost = asking.loads.costs[s];
    let held = cost - own.budget;
    let mut ends = firsts;
    let Some(done) = asking.least_after(s, &mut ends, first, held, 0, HORIZON) else {
        return row_without(own, cost);
    };
    row_by_jobs(seen, done, ends, lone as u32 + 1)
}
