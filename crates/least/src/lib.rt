// Division rounded up, loads and what they ask for, and how far on a search for a least solution of x = constant + demand of
// loads in x ticks may stand. Steps 7, 9 and 10 of the analysis are such solutions; crate `search` finds them. Loads are a
// `LoadList`, of which the first n count. Every function here is proved, and the crate assumes nothing.
#![tactic(auto)]

ghost use Rattle.std.specs.Prelude.{◌≡◌, ◌*◌, ◌-◌, ◌/◌, ◌≤◌, ◌<◌, ◌^◌};
ghost use Rattle.least.specs.Up.{up};
ghost use Rattle.least.specs.Demand.{demand};
ghost use Rattle.least.specs.Share.{unit, shares, Fitting, standing_at};
ghost use Rattle.least.specs.Search.{Loads, reach};

// Shares of a tick are counted in parts of this: 2 ^ 40.
const UNIT: u64 = 1_099_511_627_776;

// Every search stays below this number of ticks: 2 ^ 24.
pub const REACH: u32 = 16_777_216;

// Up(a, b): a divided by b, rounded up, in one 32-bit division.
pub fn round_up(a: u32, b: u32) -> u32
    requires { (1 ≤ a) × (1 ≤ b) }
    ensures { result ≡ up a b }
{
    (a - 1) / b + 1
}

// What one load asks for in x ticks.
fn load_in(period: u32, cost: u32, x: u32) -> u64
    requires { (1 ≤ period) × (cost < 2 ^ 20) × (1 ≤ x) × (x < reach) }
    ensures { (result ≡ up x period * cost) × (result < 2 ^ 44) }
{
    u64::from(round_up(x, period)) * u64::from(cost)
}

// What a load asks for of every tick, in parts of `UNIT`, rounded down.
fn share_of(period: u32, cost: u32) -> u64
    requires { (1 ≤ period) × (cost < 2 ^ 20) }
    ensures { (result ≡ cost * unit / period) × (result < 2 ^ 60) }
{
    u64::from(cost) * UNIT / u64::from(period)
}

// How far the first so many ticks of work reach where loads leave `spare` of every tick: a search with that much to do besides them may
// stand there. At most `REACH`.
pub fn standing(constant: u32, spare: u64) -> u32
    requires { (constant < reach) × (1 ≤ spare) }
    ensures { result ≡ standing_at constant spare }
{
    let reached = u64::from(constant) * UNIT / spare;
    reached.min(u64::from(REACH)) as u32
}

// Loads: each asks for its cost once in each of its periods. Load t has the period and the cost at place t:
// two slices, since what loads ask for is defined over two lists of numbers.
#[derive(Clone, Copy)]
pub struct LoadList<'a> {
    pub periods: &'a [u32],
    pub costs: &'a [u32],
}

impl<'a> LoadList<'a> {
    // What the first n loads ask for in x ticks.
    pub fn demand_in(&self, n: usize, x: u32) -> u64
        requires loads { Loads self.now.periods.now self.now.costs.now n }
        requires le_x { (1 ≤ x) × (x < reach) }
        ensures { (result ≡ demand self.now.periods.now self.now.costs.now n x) × (result ≤ 2 ^ 48) }
    {
        let mut sum: u64 = 0;
        for t in 0..n {
            sum += load_in(self.periods[t], self.costs[t], x);
        }
        sum
    }

    // What the first n loads leave free of every tick, in parts of `UNIT`; 0 where they leave nothing.
    pub fn spare_of(&self, n: usize) -> u64
        requires { Loads self.now.periods.now self.now.costs.now n }
        ensures { result ≡ unit - shares self.now.periods.now self.now.costs.now n }
    {
        let mut sum: u64 = 0;
        for j in 0..n {
            sum += share_of(self.periods[j], self.costs[j]);
        }
        UNIT.saturating_sub(sum)
    }

    // How many of the first n loads ask together for no more than every tick has. With one more they are never done with what they
    // have asked for.
    pub fn fitting(&self, n: usize) -> usize
        requires { Loads self.now.periods.now self.now.costs.now n }
        ensures { Fitting self.now.periods.now self.now.costs.now n result }
    {
        let mut sum: u64 = 0;
        for j in 0..n {
            sum += share_of(self.periods[j], self.costs[j]);
            if UNIT < sum {
                return j;
            }
        }
        n
    }
}
