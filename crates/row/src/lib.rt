// A subsystem's row and its outcome (step 11), and what both are made of. Every function here is proved, and the crate assumes nothing.
#![tactic(auto)]

ghost use Rattle.std.specs.Prelude.{◌≡◌, ◌-◌, ◌≤◌};
ghost use Rattle.row.specs.declared.Outcome.TheVariants.{None};
ghost use Rattle.row.specs.Row.{judged};

use job::{Own, Worst};

// How a row ends: with its response R within the period, or beyond it, or with none. Three kinds, so no Option or Result; document 01
// binds the form.
#[derive(Clone, Copy)]
pub enum Outcome {
    Fits(u32),
    Late(u32),
    None,
}

// The row of a subsystem, in the figures of document 01, where 0 stands for none: X, its first failing task, B, L, jobs, the first job
// and the lowest resource that reach R, and the outcome, which holds R.
#[derive(Clone, Copy)]
pub struct Row {
    pub holding: u32,
    pub failing: u32,
    pub blocking: u32,
    pub active: u32,
    pub jobs: u32,
    pub job: u32,
    pub resource: u32,
    pub outcome: Outcome,
}

// A row fits where its response is within the period, else it is late.
fn judge(period: u32, response: u32) -> Outcome
    ensures { result ≡ judged period response }
{
    if response <= period {
        Outcome::Fits(response)
    } else {
        Outcome::Late(response)
    }
}

// The row with an active period, from what its jobs have come to.
pub fn row_with(own: Own, cost: u32, active: u32, jobs: u32, worst: Worst) -> Row
    requires { own.budget ≤ cost }
    ensures { result ≡ record { holding = cost - own.budget; failing = own.failing; blocking = own.blocking; active = active; jobs = jobs; job = worst.job; resource = worst.resource; outcome = judged own.period worst.response } }
{
    Row {
        holding: cost - own.budget,
        failing: own.failing,
        blocking: own.blocking,
        active,
        jobs,
        job: worst.job,
        resource: worst.resource,
        outcome: judge(own.period, worst.response),
    }
}

// The row without an active period: X and B stand and the rest is 0.
pub fn row_without(own: Own, cost: u32) -> Row
    requires { own.budget ≤ cost }
    ensures { result ≡ record { holding = cost - own.budget; failing = own.failing; blocking = own.blocking; active = 0; jobs = 0; job = 0; resource = 0; outcome = None } }
{
    Row {
        holding: cost - own.budget,
        failing: own.failing,
        blocking: own.blocking,
        active: 0,
        jobs: 0,
        job: 0,
        resource: 0,
        outcome: Outcome::None,
    }
}
