// Rows over interfaces alone: the active period (step 7), and with crates `done` and `responses` what comes of its jobs (steps 8 to 11).
// Interfaces, their outer ceilings and blocking are crate `outer`'s; crate `ends` asks about single jobs. Every function here
// is proved, and the crate assumes nothing. Indices count from 0; document 01 counts from 1.
#![tactic(auto)]

ghost use Rattle.std.specs.Prelude.{◌≡◌, ℕ, ◌+◌, ◌≤◌, ◌<◌, MatchOption};
ghost use Rattle.std.proofs.Math.Option.{none, some};
ghost use Rattle.least.specs.Demand.{total};
ghost use Rattle.least.specs.Search.{Starts};
ghost use Rattle.search.specs.After.{Frees};
ghost use Rattle.least.specs.Share.{Fitting};
ghost use Rattle.outer.specs.Interfaces.{interfaces_in};
ghost use Rattle.row.specs.declared.Outcome.TheVariants.{None};
ghost use Rattle.job.specs.Ends.{active_period};
ghost use Rattle.row.specs.Row.{judged, row_for, row_of};
ghost use Rattle.outer.specs.Blocking.{blocking};
ghost use Rattle.outer.specs.Common.{Lent};
ghost use Rattle.job.specs.Seen.{view_in};
ghost use Rattle.job.specs.Sound.{FirstEnd};

use done::{lone_on_the_way, nearly_all, on_the_way, row_alone, row_by_jobs};
use job::{HORIZON, Own, Seen};
use least::{REACH, round_up, standing};
use outer::Shown;
use outer::interfaces::{budget, period};
use outer::leading::leading;
use responses::largest_response;
use row::{Row, row_with, row_without};
use search::Asking;
use table::Table;

// The row with an active period.
fn active_row(seen: &Seen, active: u32, first: u32, ends: [u32; Table::MOST]) -> Row
    requires own_value { active_period (view_in seen.now) ≡ some active }
    requires first_end { FirstEnd (view_in seen.now) ends first }
    ensures { result ≡ row_for (view_in seen.now) seen.now.own.failing (some active) }
{
    let own = seen.own;
    let n = round_up(active, own.period);
    let worst = largest_response(seen, n, active, first, ends);
    row_with(own, seen.asking.loads.costs[own.place], active, n, worst)
}

// Whether the active period may be far: the first budget ends some periods late, or it ends after the next release and the shares that the
// subsystems have of every tick, with what each asks for at once, do not bring the active period within the horizon. Only time hangs on
// the answer: a way from job to job would be long then, and in vain where there is no active period.
fn may_be_far(seen: &Seen, first: u32) -> bool {
    let own = &seen.own;
    let loads = &seen.asking.loads;
    if first <= own.period {
        return false;
    }
    if own.period < first / 4 {
        return true;
    }
    let n = own.place + 1;
    let spare = loads.spare_of(n);
    if spare == 0 {
        return true;
    }
    let once = u64::from(own.blocking) + loads.demand_in(n, 1);
    u64::from(REACH) <= once || HORIZON < standing(once as u32, spare)
}

// Where the search for the active period may stand: what blocks reaches as far as the subsystems leave free of every tick. Only where it
// may be far is that worth knowing. 0 stands for no such number.
fn active_start(seen: &Seen, far: bool) -> u32
    ensures { (x : ℕ) → Starts (total seen.now.asking.loads.periods.now seen.now.asking.loads.costs.now (seen.now.own.place + 1) seen.now.own.blocking) x result }
{
    if !far {
        return 0;
    }
    let spare = seen.asking.loads.spare_of(seen.own.place + 1);
    if spare == 0 {
        return 0;
    }
    standing(seen.own.blocking, spare)
}

// The active period, where there is one within the horizon. The search goes on from the first budget end: by
// then what blocks and the higher subsystems' periods are waited for in any case, and so are the subsystem's own that have begun.
fn active_from(seen: &Seen, first: u32, ends: [u32; Table::MOST], far: bool) -> Option<u32>
    requires first_end { FirstEnd (view_in seen.now) ends first }
    ensures { MatchOption result (active_period (view_in seen.now) ≡ none) (λ active. active_period (view_in seen.now) ≡ some active) }
{
    let own = &seen.own;
    let asking = &seen.asking;
    let s = own.place;
    let begun = round_up(first, own.period);
    let mut reached = ends;
    reached[s] = begun * own.period;
    let more = begun * asking.loads.costs[s] - own.budget;
    let start = active_start(seen, far);
    asking.least_after(s + 1, &mut reached, first, more, start, HORIZON)
}

// The row of a subsystem whose active period is searched for before its jobs, from the first budget end. Where nothing is held and nearly
// all jobs have to be looked at all the same, they are gone through as on the way.
fn row_searched(seen: &Seen, first: u32, ends: [u32; Table::MOST], far: bool) -> Row
    requires first_end { FirstEnd (view_in seen.now) ends first }
    ensures { result ≡ row_for (view_in seen.now) seen.now.own.failing (active_period (view_in seen.now)) }
{
    let own = seen.own;
    let cost = seen.asking.loads.costs[own.place];
    let Some(active) = active_from(seen, first, ends, far) else {
        return row_without(own, cost);
    };
    if nearly_all(own, cost, first, active) {
        return row_by_jobs(seen, first, ends, 0);
    }
    active_row(seen, active, first, ends)
}

// The row from what the subsystem has before it. Only the first `fits` subsystems ask for no more than every tick has; for one
// behind them nothing is searched. Else the first budget end is. From there, where nothing is held, or one resource alone, the active
// period is found on the way from job to job, unless it may be far: then one search passes over them all, and tells whether there is
// one and whether most jobs are settled early.
fn row_seen(seen: &Seen, fits: usize) -> Row
    requires own_value { fits ≤ seen.now.own.place → active_period (view_in seen.now) ≡ none }
    ensures { result ≡ row_for (view_in seen.now) seen.now.own.failing (active_period (view_in seen.now)) }
{
    let own = seen.own;
    let s = own.place;
    let cost = seen.asking.loads.costs[s];
    if fits <= s {
        return row_without(own, cost);
    }
    let mut ends = [0u32; Table::MOST];
    let ahead = own.blocking + own.budget;
    let Some(first) = seen.asking.least_after(s, &mut ends, 0, ahead, 0, HORIZON) else {
        return row_without(own, cost);
    };
    let far = may_be_far(seen, first);
    if let Some(lone) = lone_on_the_way(seen.holdings, seen.ceilings, own, cost, far) {
        return row_alone(seen, first, ends, lone);
    }
    if on_the_way(own, cost, far) {
        return row_by_jobs(seen, first, ends, 0);
    }
    row_searched(seen, first, ends, far)
}

// The row of subsystem s, with the number of its first failing task, 0 for none. What all rows share is lent; `blocked` is B(s), and the
// first `fits` subsystems ask for no more than every tick has.
pub fn row_of(
    shown: &Shown,
    asking: &Asking,
    ceilings: &[usize],
    blocked: u32,
    fits: usize,
    s: usize,
    failing: u32,
) -> Row
    requires s_lt_n { s < shown.now.n }
    requires lent { Lent (interfaces_in shown.now.n shown.now.m shown.now.lines.now) asking.now.loads.periods.now asking.now.loads.costs.now ceilings.now }
    requires frees { Frees asking.now.loads.periods.now asking.now.loads.costs.now asking.now.frees.now (s + 1) }
    requires blocked_value { (blocked ≡ blocking (interfaces_in shown.now.n shown.now.m shown.now.lines.now) s) × Fitting asking.now.loads.periods.now asking.now.loads.costs.now shown.now.n fits }
    ensures { result ≡ row_of (interfaces_in shown.now.n shown.now.m shown.now.lines.now) s failing }
{
    let held = leading(shown.lines, s, ceilings);
    let own = Own {
        place: s,
        period: period(shown.lines, s),
        budget: budget(shown.lines, s),
        blocking: blocked,
        failing,
    };
    let seen = Seen {
        asking: *asking,
        holdings: &held[..shown.m],
        ceilings,
        own,
    };
    row_seen(&seen, fits)
}
