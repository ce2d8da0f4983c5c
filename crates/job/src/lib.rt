// Steps 9 to 11 for one job: where it ends with each resource that is held, and its response. What a subsystem sees of the others, its
// active period, its jobs and their ends are defined in specs/. Every function here is proved, and the crate assumes nothing.
#![tactic(auto)]

mod seen;

ghost use Rattle.std.specs.Prelude.{◌≡◌, cond, ◌+◌, ◌≤◌, ltb, length};
ghost use Rattle.least.specs.Demand.{total};
ghost use Rattle.least.specs.Search.{IsLeast};
ghost use Rattle.search.specs.After.{Frees, EndsAt, afterwards};
ghost use Rattle.table.specs.Limits.{most};
ghost use Rattle.job.specs.Response.{response_with};
ghost use Rattle.job.specs.Ends.{budget_end};
ghost use Rattle.job.specs.Computed.{BudgetOver, best_of, job_of};
ghost use Rattle.job.specs.Seen.{view_in};
ghost use Rattle.job.specs.Sound.{Counted};

pub use crate::seen::Seen;
use search::Asking;
use table::Table;

// The last tick at which an active period may end, and so the last at which any search does.
pub const HORIZON: u32 = Table::HORIZON;

// What a subsystem knows of itself: s, P(s), Q(s), B(s) and the number of its first failing task, 0 for none as in the row's figure,
// which only its row tells.
#[derive(Clone, Copy)]
pub struct Own {
    pub place: usize,
    pub period: u32,
    pub budget: u32,
    pub blocking: u32,
    pub failing: u32,
}

// The largest value so far, and the first place that has it.
#[derive(Clone, Copy)]
pub struct Best {
    pub value: u32,
    pub at: usize,
}

// A job: where its budget ends, its response, and the lowest resource, counted from 1, with which it has that response.
#[derive(Clone, Copy)]
pub struct Job {
    pub end: u32,
    pub response: u32,
    pub resource: u32,
}

// The largest response so far, the first job that has it, and that job's resource.
#[derive(Clone, Copy)]
pub struct Worst {
    pub response: u32,
    pub job: u32,
    pub resource: u32,
}

// The better of the best so far and a value at a later place: the earlier stays where they are equal.
fn better(best: Best, value: u32, at: usize) -> Best
    ensures { result ≡ cond (ltb best.value value) (record { value = value; at = at }) best }
{
    if best.value < value {
        Best { value, at }
    } else {
        best
    }
}

// The worse of the worst job so far and a later one: the earlier stays where they are equal. `better` is its twin; one generic form would
// have to be told both values and both records, and would say less than either.
pub fn worse(worst: Worst, job: Job, k: u32) -> Worst
    ensures { result ≡ cond (ltb worst.response job.response) (record { response = job.response; job = k; resource = job.resource }) worst }
{
    if worst.response < job.response {
        Worst {
            response: job.response,
            job: k,
            resource: job.resource,
        }
    } else {
        worst
    }
}

// The response with one resource of a job that is released at `release` and whose budget ends at `end`: the job ends after
// `held` ticks more and whatever the first n loads ask for meanwhile.
fn response_with(
    asking: &Asking,
    n: usize,
    ends: [u32; Table::MOST],
    end: u32,
    held: u32,
    release: u32,
) -> u32
    requires ends_at { EndsAt asking.now.loads.periods.now ends n end × (most ≤ length ends) }
    requires budget_over { BudgetOver asking.now.loads.periods.now asking.now.loads.costs.now n end held }
    requires release_le_end { release ≤ end }
    requires frees { Frees asking.now.loads.periods.now asking.now.loads.costs.now asking.now.frees.now n }
    ensures { IsLeast (total asking.now.loads.periods.now asking.now.loads.costs.now n (afterwards asking.now.loads.periods.now asking.now.loads.costs.now n end held)) (result + release) }
{
    let mut reached = ends;
    asking.least_within(n, &mut reached, end, held, 0) - release
}

// The largest response of job k, whose budget ends at `end`, over the resources that are held, and the lowest of these that has it.
fn best_response(seen: &Seen, k: u32, end: u32, ends: [u32; Table::MOST]) -> Best
    requires counted { Counted (view_in seen.now) k }
    requires end_value { end ≡ budget_end (view_in seen.now) k }
    requires ends_at { EndsAt seen.now.asking.loads.periods.now ends seen.now.own.place end × (most ≤ length ends) }
    ensures { result ≡ best_of (response_with (view_in seen.now) k) (length seen.now.holdings.now) }
{
    let mut best = Best { value: 0, at: 0 };
    for (l, &held) in seen.holdings.iter().enumerate() {
        if held != 0 {
            let release = k * seen.own.period;
            let n = seen.ceilings[l];
            let response = response_with(&seen.asking, n, ends, end, held, release);
            best = better(best, response, l);
        }
    }
    best
}

// Job k, whose budget ends at `end`. Where no resource is held, the job ends with its budget.
pub fn job_response(seen: &Seen, k: u32, end: u32, ends: [u32; Table::MOST]) -> Job
    requires counted { Counted (view_in seen.now) k }
    requires end_value { end ≡ budget_end (view_in seen.now) k }
    requires ends_at { EndsAt seen.now.asking.loads.periods.now ends seen.now.own.place end × (most ≤ length ends) }
    ensures { result ≡ job_of (view_in seen.now) k }
{
    let own = &seen.own;
    if seen.asking.loads.costs[own.place] == own.budget {
        return Job {
            end,
            response: end - k * own.period,
            resource: 0,
        };
    }
    let best = best_response(seen, k, end, ends);
    Job {
        end,
        response: best.value,
        resource: best.at as u32 + 1,
    }
}
