// What a subsystem is sure to be given in a window of time: the formula of step 4 as a function, and the other way round
// the shortest window that is sure to hold a number of ticks. specs/ has the formula, the ways of handing out that it
// speaks about and the published bound; proofs/Agreement.antt says that they agree. Every function here is proved, and
// the crate assumes nothing of its own.
#![tactic(auto)]

ghost use Rattle.std.specs.Prelude.{◌≡◌, ◌≤◌, ◌<◌, ◌^◌};
ghost use Rattle.supply.specs.Supply.{supply};
ghost use Rattle.supply.specs.Moment.{moment_of};

// What a subsystem shares out: a budget of at least one tick in each period, given among the period's first `end` ticks. The
// budget is within its end and the end within the period; so no number of the methods can wrap.
#[derive(Clone, Copy)]
pub struct Share {
    pub period: u32,
    pub budget: u32,
    pub end: u32,
    ghost budget_least: { 1 ≤ budget },
    ghost budget_by_end: { budget ≤ end },
    ghost end_by_period: { end ≤ period },
}

impl Share {
    // The supply of a window of `x` ticks. One division.
    pub fn supply_in(&self, x: u32) -> u32
        ensures { result ≡ supply self.now.period self.now.budget self.now.end x }
    {
        let lead = self.end - self.budget;
        if x < lead {
            return 0;
        }
        let idle = self.period - self.budget;
        let past = x - lead;
        let whole = past / self.period;
        let rest = past - whole * self.period;
        let full = whole * self.budget;
        full + rest.saturating_sub(idle)
    }

    // The shortest window that is sure to hold `n` ticks. One division, of 32 bits.
    pub fn moment_of(&self, n: u32) -> u64
        requires le_n { (1 ≤ n) × (n < 2 ^ 31) }
        ensures { result ≡ moment_of self.now.period self.now.budget self.now.end n }
    {
        let gap = u64::from(self.period - self.budget) + u64::from(self.end - self.budget);
        let before = n - 1;
        let whole = before / self.budget;
        let rest = before - whole * self.budget;
        gap + u64::from(whole) * u64::from(self.period) + (u64::from(rest) + 1)
    }
}
