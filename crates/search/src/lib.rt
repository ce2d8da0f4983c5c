// Searches that go on where an earlier one ended. For each load the end of its last period that has begun is kept, so that a
// load is looked at by one comparison: only where x has passed that end does it ask again, and then as often as it takes to be
// ahead of x, which its own costs move on. No load is divided for at every step. Every function here is proved, and the crate
// assumes nothing.
#![tactic(auto)]

ghost use Rattle.std.specs.Prelude.{◌≡◌, ◌^◌, ◌≤◌, ◌<◌, length, get_or};
ghost use Rattle.least.specs.Demand.{total};
ghost use Rattle.least.specs.Search.{ComesDown, IsLeast, reach};
ghost use Rattle.search.specs.After.{Fit, Periods, EndsAt, slots, afterwards, After, Bounded, FoundOr, Behind, CaughtUpOr, Advanced};

use least::{LoadList, round_up};

// How many loads a search may have.
pub const SLOTS: usize = 8;

// Into `ends`: where the last period of each of the first n loads ends that begins within y ticks.
pub fn ends_at(periods: &[u32], n: usize, y: u32, ends: &mut [u32; SLOTS])
    requires periods { Periods periods.now n × (n ≤ slots) × (n ≤ length ends.old) }
    requires le_y { (1 ≤ y) × (y < 2 ^ 25) }
    ensures { EndsAt periods.now ends.new n y × (length ends.new ≡ length ends.old) }
{
    for t in 0..n {
        ends[t] = round_up(y, periods[t]) * periods[t];
    }
}

// On to `start`, where the search may stand: each load asks as often as it does by then. What there is then to do, where it is x now.
fn advanced(loads: &LoadList, n: usize, ends: &mut [u32; SLOTS], x: u32, start: u32) -> u32
    requires fit { Fit loads.now.periods.now loads.now.costs.now n × (n ≤ slots) × (n ≤ length ends.old) }
    requires x_lt_reach { (x < reach) × (start ≤ reach) }
    ensures { Advanced loads.now.periods.now loads.now.costs.now ends.old n x start ends.new result }
{
    let mut sum = x;
    for t in 0..n {
        if ends[t] < start {
            let times = round_up(start - ends[t], loads.periods[t]);
            ends[t] += times * loads.periods[t];
            sum += times * loads.costs[t];
        }
    }
    sum
}

// What a search asks: its loads, and what each of them leaves free of its period.
#[derive(Clone, Copy)]
pub struct Asking<'a> {
    pub loads: LoadList<'a>,
    pub frees: &'a [u32],
}

impl<'a> Asking<'a> {
    // Load t, whose last period has ended before x, asks again until it is ahead: most often once, else as often as the ticks that its
    // periods leave free make up for what it is behind. A load that leaves none free never is. What there is then to do, where that is
    // at most the bound; each way asks for that itself, so that the one that asks once multiplies nothing.
    fn ask(&self, t: usize, ends: &mut [u32; SLOTS], x: u32, bound: u64) -> Option<u32>
        requires t_lt_slots { (t < slots) × (t < length self.now.loads.periods.now) × (t < length self.now.loads.costs.now) × (t < length self.now.frees.now) × (t < length ends.old) }
        requires behind { Behind (get_or ends.old t 0) x (get_or self.now.loads.periods.now t 0) (get_or self.now.loads.costs.now t 0) (get_or self.now.frees.now t 0) bound }
        ensures { CaughtUpOr ends.old t x (get_or self.now.loads.periods.now t 0) (get_or self.now.loads.costs.now t 0) bound ends.new result }
    {
        let end = ends[t];
        let behind = x - end;
        let free = self.frees[t];
        if behind <= free {
            ends[t] = end + self.loads.periods[t];
            let once = x + self.loads.costs[t];
            if bound < u64::from(once) {
                return None;
            }
            return Some(once);
        }
        if free == 0 {
            return None;
        }
        let times = round_up(behind, free);
        let reached = u64::from(x) + u64::from(times) * u64::from(self.loads.costs[t]);
        if bound < reached {
            return None;
        }
        ends[t] = end + times * self.loads.periods[t];
        Some(reached as u32)
    }

    // The search: the least solution after y ticks, with `more` ticks to do besides the first n loads, where it is at most the bound. The
    // bound is within reach, or a solution is, and then any bound will do. No solution lies before `start`. `ends` holds the ends of the
    // periods begun by y, and then of those begun by the solution. It goes over all loads in passes, up to one in which none asks: all are
    // ahead then. Two instructions spared at every load are worth more than the last pass.
    // `inline` asks for this function and the two below to become part of their callers, and the search goes by a copy of what is asked:
    // so its loops need not look up where the slices lie.
    #[inline]
    fn climb(
        &self,
        n: usize,
        ends: &mut [u32; SLOTS],
        y: u32,
        more: u32,
        start: u32,
        bound: u64,
    ) -> Option<u32>
        requires after { After self.now.loads.periods.now self.now.loads.costs.now self.now.frees.now ends.old n y more start }
        requires bounded { Bounded (total self.now.loads.periods.now self.now.loads.costs.now n (afterwards self.now.loads.periods.now self.now.loads.costs.now n y more)) bound }
        ensures found { FoundOr self.now.loads.periods.now self.now.loads.costs.now ends.new n (afterwards self.now.loads.periods.now self.now.loads.costs.now n y more) bound result }
        ensures ends_len_unchanged { length ends.new ≡ length ends.old }
    {
        let asking = *self;
        let mut x = y + more;
        if x < start {
            x = advanced(&asking.loads, n, ends, x, start);
        }
        if bound < u64::from(x) {
            return None;
        }
        'passes: loop {
            let before = x;
            for t in 0..n {
                if ends[t] < x {
                    x = asking.ask(t, ends, x, bound)?;
                }
            }
            if x == before {
                return Some(x);
            }
        }
    }

    // The least solution after y ticks, where it is at most the bound.
    #[inline]
    pub fn least_after(
        &self,
        n: usize,
        ends: &mut [u32; SLOTS],
        y: u32,
        more: u32,
        start: u32,
        bound: u32,
    ) -> Option<u32>
        requires after { After self.now.loads.periods.now self.now.loads.costs.now self.now.frees.now ends.old n y more start }
        requires bound_lt_reach { bound < reach }
        ensures found { FoundOr self.now.loads.periods.now self.now.loads.costs.now ends.new n (afterwards self.now.loads.periods.now self.now.loads.costs.now n y more) bound result }
        ensures ends_len_unchanged { length ends.new ≡ length ends.old }
    {
        self.climb(n, ends, y, more, start, u64::from(bound))
    }

    // The same where the total is known to come down within reach: there is a least solution then, and nothing is compared with a bound.
    #[inline]
    pub fn least_within(
        &self,
        n: usize,
        ends: &mut [u32; SLOTS],
        y: u32,
        more: u32,
        start: u32,
    ) -> u32
        requires after { After self.now.loads.periods.now self.now.loads.costs.now self.now.frees.now ends.old n y more start }
        requires comes_down { ComesDown (total self.now.loads.periods.now self.now.loads.costs.now n (afterwards self.now.loads.periods.now self.now.loads.costs.now n y more)) }
        ensures least { IsLeast (total self.now.loads.periods.now self.now.loads.costs.now n (afterwards self.now.loads.periods.now self.now.loads.costs.now n y more)) result }
        ensures ends_at { EndsAt self.now.loads.periods.now ends.new n result × (length ends.new ≡ length ends.old) }
    {
        let Some(x) = self.climb(n, ends, y, more, start, u64::MAX) else {
            unreachable!()
        };
        x
    }
}
