// The jobs of one subsystem by number: how many there are, where the budget of each ends, and where each ends with a
// resource. The rows of crate `global` go through all of them; this is for whoever asks about one. Every function here is
// proved, and the crate assumes nothing.
#![tactic(auto)]

ghost use Rattle.std.specs.Prelude.{◌≡◌, ◌<◌, take};
ghost use Rattle.least.specs.Demand.{total};
ghost use Rattle.least.specs.Search.{IsLeast};
ghost use Rattle.search.specs.After.{afterwards, Frees};
ghost use Rattle.outer.specs.Shown.{shown_by};
ghost use Rattle.outer.specs.Blocking.{blocking};
ghost use Rattle.job.specs.View.{view_of, held};
ghost use Rattle.job.specs.Ends.{ahead, budget_end, job_end};
ghost use Rattle.job.specs.JobCount.{job_count};
ghost use Rattle.job.specs.Computed.{BudgetOver};
ghost use Rattle.job.specs.Sound.{Counted};

mod known;

use job::HORIZON;
pub use known::Known;
use least::{LoadList, round_up};
use outer::interfaces;
use search::{Asking, ends_at};
use table::Table;

// The loads that the subsystems are to each other, with what each leaves free.
fn asking_of<'a>(known: &Known<'a>) -> Asking<'a>
    ensures periods { result.loads.periods.now ≡ take known.now.shown.n known.now.common.now.periods }
    ensures costs { result.loads.costs.now ≡ take known.now.shown.n known.now.common.now.costs }
    ensures frees { result.frees.now ≡ take known.now.shown.n known.now.common.now.frees }
{
    let n = known.shown.n;
    Asking {
        loads: LoadList {
            periods: &known.common.periods[..n],
            costs: &known.common.costs[..n],
        },
        frees: &known.common.frees[..n],
    }
}

// B(s), from what the rows share.
fn blocking_in(known: &Known, s: usize) -> u32
    requires { s < known.now.shown.n }
    ensures { result ≡ blocking (shown_by known.now.shown) s }
{
    known.common.blockings[s]
}

// The number of jobs in the active period of subsystem s, 0 where none ends within the horizon. The search goes on from the first
// tick, by which every load has asked once.
pub fn jobs_of(known: &Known, s: usize) -> u32
    requires { s < known.now.shown.n }
    ensures { result ≡ job_count (view_of (shown_by known.now.shown) s) }
{
    let asking = asking_of(known);
    let blocking = blocking_in(known, s);
    let mut ends = [0u32; Table::MOST];
    ends_at(asking.loads.periods, s + 1, 1, &mut ends);
    let once = asking.loads.demand_in(s + 1, 1) as u32;
    let Some(active) = asking.least_after(s + 1, &mut ends, 1, blocking + once - 1, 0, HORIZON)
    else {
        return 0;
    };
    round_up(active, known.common.periods[s])
}

// What job k waits for besides higher subsystems: B(s) + k × (Q + X) + Q.
fn ahead_of_job(known: &Known, s: usize, k: u32) -> u64
    requires s_lt_n { s < known.now.shown.n }
    requires counted { Counted (view_of (shown_by known.now.shown) s) k }
    ensures { result ≡ ahead (view_of (shown_by known.now.shown) s) k }
{
    let before = k * known.common.costs[s];
    u64::from(blocking_in(known, s))
        + u64::from(before)
        + u64::from(interfaces::budget(known.shown.lines, s))
}

// F(k): the end of job k's budget.
pub fn budget_end(known: &Known, s: usize, k: u32) -> u32
    requires s_lt_n { s < known.now.shown.n }
    requires counted { Counted (view_of (shown_by known.now.shown) s) k }
    ensures { result ≡ budget_end (view_of (shown_by known.now.shown) s) k }
{
    let asking = asking_of(known);
    let ahead = ahead_of_job(known, s, k) as u32;
    let mut ends = [0u32; Table::MOST];
    asking.least_within(s, &mut ends, 0, ahead, 0)
}

// Where a job ends whose budget has ended at `end`: after `held` ticks more and whatever the first n loads ask for meanwhile.
fn end_after(asking: &Asking, n: usize, end: u32, held: u32) -> u32
    requires budget_over { BudgetOver asking.now.loads.periods.now asking.now.loads.costs.now n end held }
    requires frees { Frees asking.now.loads.periods.now asking.now.loads.costs.now asking.now.frees.now n }
    ensures { IsLeast (total asking.now.loads.periods.now asking.now.loads.costs.now n (afterwards asking.now.loads.periods.now asking.now.loads.costs.now n end held)) result }
{
    let mut ends = [0u32; Table::MOST];
    ends_at(asking.loads.periods, n, end, &mut ends);
    asking.least_within(n, &mut ends, end, held, 0)
}

// The end of job k with resource l, which subsystem s holds for a time. The search goes on from where the budget ends.
pub fn job_end(known: &Known, s: usize, k: u32, l: usize) -> u32
    requires s_lt_n { s < known.now.shown.n }
    requires counted { Counted (view_of (shown_by known.now.shown) s) k }
    requires l_lt_m { (l < known.now.shown.m) × (0 < held (view_of (shown_by known.now.shown) s) l) }
    ensures { result ≡ job_end (view_of (shown_by known.now.shown) s) k l }
{
    let asking = asking_of(known);
    let end = budget_end(known, s, k);
    let held = interfaces::held(known.shown.lines, s, l);
    end_after(&asking, known.common.ceilings[l], end, held)
}
