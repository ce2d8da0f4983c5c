// Whether a job has room for a larger response than the worst so far: where it has none, its end need not be looked for.
ghost use Rattle.std.specs.Prelude.{◌≡◌, true, false, ℕ, ◌+◌, ◌*◌, ◌^◌, ◌≤◌, ◌<◌, ltb, length, get_or};
ghost use Rattle.table.specs.Limits.{most};
ghost use Rattle.responses.specs.Known.{EndedBy, Plain};

use job::{Own, Worst};
use least::round_up;
use table::Table;

// Whether no higher subsystem comes between once the budget has ended: every resource that is held has the highest ceiling. For a row of
// one job nobody wants to know, and the answer is no.
pub(crate) fn is_plain(holdings: &[u32], ceilings: &[usize], n: u32) -> bool
    requires { length holdings.now ≤ length ceilings.now }
    ensures { result ≡ true → Plain holdings.now ceilings.now }
{
    n != 1
        && holdings
            .iter()
            .zip(ceilings)
            .all(|(&held, &ceiling)| held == 0 || ceiling == 0)
}

// Whether none of the first n loads has a period that begins before x, `ends` holding where those end that have begun.
fn none_begins(ends: &[u32; Table::MOST], n: usize, x: u32) -> bool
    requires { (n ≤ most) × (n ≤ length ends.now) }
    ensures { result ≡ true → (t : ℕ) → t < n → x ≤ get_or ends.now t 0 }
{
    ends[..n].iter().all(|&end| x <= end)
}

// Whether job k, where it ends at `latest`, responds later than the worst so far.
fn is_worse_at(own: Own, worst: Worst, k: u32, latest: u32) -> bool
    requires { k * own.period < 2 ^ 32 }
    ensures { result ≡ ltb (worst.response + k * own.period) latest }
{
    u64::from(worst.response) + u64::from(k * own.period) < u64::from(latest)
}

// Whether job k may respond later than the worst so far. It ends by `sure`, X after its budget, where no higher subsystem comes between
// (`plain`) or has a period that begins before; and always Q ticks before `next`, the end of the next one's budget, or earlier. The
// cheapest test comes first.
pub(crate) fn may_be_worse(
    own: Own,
    worst: Worst,
    plain: bool,
    k: u32,
    sure: u32,
    next: u32,
    ends: &[u32; Table::MOST],
) -> bool
    requires period_bound { (k * own.period < 2 ^ 32) × (own.budget ≤ next) }
    requires place_le_most { (own.place ≤ most) × (own.place ≤ length ends.now) }
    ensures { result ≡ false → EndedBy own.place own.budget plain sure next ends.now (worst.response + k * own.period) }
{
    if plain {
        return is_worse_at(own, worst, k, sure);
    }
    is_worse_at(own, worst, k, next - own.budget)
        && (is_worse_at(own, worst, k, sure) || !none_begins(ends, own.place, sure))
}

// The first job, at most `last`, from which on none can respond later than the worst so far: each leaves Q + X for every job behind
// it within the active period, of which `room` is what the jobs behind job 0 leave, and a period has `free` ticks besides.
pub(crate) fn settled_from(worst: Worst, room: u32, free: u32, last: u32) -> u32
    ensures { (result ≤ last) × (result < last → room ≤ worst.response + result * free) }
{
    if room <= worst.response {
        return 0;
    }
    if free == 0 {
        return last;
    }
    round_up(room - worst.response, free).min(last)
}
