// Outer ceilings, and what the rows of all subsystems share: the loads that subsystems are to each other.
ghost use Rattle.std.specs.Prelude.{◌≡◌, ℕ, ◌+◌, ◌-◌, ◌^◌, ◌<◌, ◌≤◌, length, get_or, take};
ghost use Rattle.lists.specs.Range.{largest_to, padded};
ghost use Rattle.least.specs.Share.{Fitting};
ghost use Rattle.least.specs.Search.{Loads};
ghost use Rattle.table.specs.Limits.{most};
ghost use Rattle.outer.specs.Interfaces.{period_at, budget_at, held_at};
ghost use Rattle.outer.specs.Shown.{shown_by};
ghost use Rattle.outer.specs.Parts.{cost_of};
ghost use Rattle.outer.specs.Blocked.{ceiling_in};
ghost use Rattle.outer.specs.Common.{common_of};

use crate::blocking::blockings_of;
use crate::interfaces::{budget, held, period};
use crate::shown::Shown;
use least::LoadList;
use table::Table;
use table::slots::filled;

// What the rows of all subsystems share: P(s), Q(s) + X(s), what that leaves free of P(s), and B(s), of each subsystem, and RC(l) of
// each resource. Slots past the counts are 0. One array for each, since the definitions and the searches take each by itself.
#[derive(Clone, Copy)]
pub struct Common {
    pub periods: [u32; Table::MOST],
    pub costs: [u32; Table::MOST],
    pub frees: [u32; Table::MOST],
    pub ceilings: [usize; Table::MOST],
    pub blockings: [u32; Table::MOST],
}

// X(s): the largest holding time over all resources.
pub(crate) fn largest_holding(shown: &Shown, s: usize) -> u32
    requires { s < most }
    ensures { result ≡ largest_to (held_at shown.now.lines.now s) shown.now.m }
{
    // A loop, since the largest of no holding times is 0, which `max` of a chain leaves out.
    let mut best: u32 = 0;
    for l in 0..shown.m {
        best = best.max(held(shown.lines, s, l));
    }
    best
}

// RC(l): the lowest index of a subsystem with an access to resource l, or the last where there is none.
pub(crate) fn outer_ceiling(shown: &Shown, l: usize) -> usize
    requires { l < most }
    ensures { result ≡ ceiling_in shown.now.lines.now shown.now.n l }
{
    (0..shown.n)
        .find(|s| 0 < held(shown.lines, *s, l))
        .unwrap_or(shown.n - 1)
}

// The period of each subsystem.
fn periods_of(shown: &Shown) -> [u32; Table::MOST]
    ensures { result ≡ padded (period_at shown.now.lines.now) 0 most shown.now.n }
{
    filled(shown.n, 0, |s| period(shown.lines, s))
}

// Q(s) + X(s).
fn cost(shown: &Shown, s: usize) -> u32
    requires { s < shown.now.n }
    ensures { result ≡ budget_at shown.now.lines.now s + largest_to (held_at shown.now.lines.now s) shown.now.m }
{
    budget(shown.lines, s) + largest_holding(shown, s)
}

// Budget and largest holding time of each subsystem, together.
fn costs_of(shown: &Shown) -> [u32; Table::MOST]
    ensures { result ≡ padded (cost_of (shown_by shown.now)) 0 most shown.now.n }
{
    filled(shown.n, 0, |s| cost(shown, s))
}

// What each of n subsystems leaves free of its period.
fn frees_of(periods: [u32; Table::MOST], costs: [u32; Table::MOST], n: usize) -> [u32; Table::MOST]
    requires n_le_most { (n ≤ most) × (n ≤ length periods) × (n ≤ length costs) }
    requires by_index { (t : ℕ) → t < n → get_or costs t 0 ≤ get_or periods t 0 }
    ensures { result ≡ padded (λ t. get_or periods t 0 - get_or costs t 0) 0 most n }
{
    filled(n, 0, |s| periods[s] - costs[s])
}

// The outer ceiling of each resource.
fn ceilings_of(shown: &Shown) -> [usize; Table::MOST]
    ensures { result ≡ padded (ceiling_in shown.now.lines.now shown.now.n) 0 most shown.now.m }
{
    filled(shown.m, 0, |l| outer_ceiling(shown, l))
}

// What the rows of these interfaces share.
pub fn in_common(shown: &Shown) -> Common
    ensures { result ≡ common_of (shown_by shown.now) }
{
    let periods = periods_of(shown);
    let costs = costs_of(shown);
    let ceilings = ceilings_of(shown);
    Common {
        periods,
        costs,
        frees: frees_of(periods, costs, shown.n),
        ceilings,
        blockings: blockings_of(shown, ceilings),
    }
}

// How many of the n subsystems, from the first on, ask together for no more than every tick has. One behind them has no active
// period.
pub fn fitting_of(common: &Common, n: usize) -> usize
    requires loads { Loads (take n common.now.periods) (take n common.now.costs) n }
    requires n_in_bounds { (n ≤ length common.now.periods) × (n ≤ length common.now.costs) }
    ensures { Fitting (take n common.now.periods) (take n common.now.costs) n result }
{
    let loads = LoadList {
        periods: &common.periods[..n],
        costs: &common.costs[..n],
    };
    loads.fitting(n)
}
