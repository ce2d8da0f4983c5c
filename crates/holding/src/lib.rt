// Steps 1 and 2 for one subsystem, whose block is lent: the inner ceiling and the holding times. That rule 1 has judged the counts
// is in the type of what is lent (`Part`); times may be anything, since sums of eight 32-bit numbers fit 64 bits.
#![tactic(auto)]

ghost use Rattle.std.specs.Prelude.{◌≡◌, cond, ◌≤◌, ◌<◌, max, eqb, set};
ghost use Rattle.lists.specs.Range.{sum_to};
ghost use Rattle.table.specs.Limits.{most};
ghost use Rattle.table.specs.Grid.{count_in, work_in, subsystem_in};
ghost use Rattle.holding.specs.Holding.{inner_ceiling};
ghost use Rattle.holding.specs.Held.{HeldUpTo, IsHeld, slot_of};

use table::Table;
use table::grid::{access, count, work};

mod part;

pub use part::Part;

// X(s, l) of each resource, 0 past the last, and X(s), the largest of them.
#[derive(Clone, Copy)]
pub struct Held {
    pub each: [u64; Table::MOST],
    pub largest: u64,
}

// The lowest index of a task that accesses resource l, or the last index where none does.
pub fn inner_ceiling(part: &Part, l: usize) -> usize
    requires { l < part.now.m }
    ensures { result ≡ inner_ceiling (subsystem_in part.now.m part.now.block.now) l }
{
    let n = count(part.block);
    for i in 0..n {
        if 0 < access(part.block, i, l) {
            return i;
        }
    }
    n - 1
}

// The work above a resource's inner ceiling, at an access: what stands already where the resource is held, or else all the work
// before, since this access is the first.
fn work_above(held: u64, above: u64, before: u64) -> u64
    ensures { result ≡ cond (eqb held 0) before above }
{
    if held == 0 { before } else { above }
}

// X(s, l) so far, raised to what an access makes it, and X(s) so far. Most accesses raise nothing, and nothing is stored then.
fn raise(each: &mut [u64; Table::MOST], l: usize, held: u64, former: u64) -> u64
    requires { (l < most) × (slot_of each.old l ≤ former) }
    ensures { (result ≡ max former held) × (each.new ≡ set each.old l (max (slot_of each.old l) held)) }
{
    if held <= each[l] {
        return former;
    }
    each[l] = held;
    former.max(held)
}

// Task i joins those before it, whose work is `before`: the longest access with all that can preempt it, of each resource.
// `former` is X(s) so far. Resources that the task does not access are passed over.
fn with_task(
    part: &Part,
    i: usize,
    before: u64,
    each: &mut [u64; Table::MOST],
    above: &mut [u64; Table::MOST],
    former: u64,
) -> u64
    requires i_bound { i < count_in part.now.block.now }
    requires before_value { (before ≡ sum_to (work_in part.now.block.now) i) × (before < 34359738368) }
    requires held_up_to { HeldUpTo part.now.block.now part.now.m i 0 each.old above.old former }
    ensures { HeldUpTo part.now.block.now part.now.m i part.now.m each.new above.new result }
{
    let mut largest = former;
    for l in 0..part.m {
        let c = u64::from(access(part.block, i, l));
        if c != 0 {
            let top = work_above(each[l], above[l], before);
            let held = top + c;
            above[l] = top;
            largest = raise(each, l, held, largest);
        }
    }
    largest
}

// X(s, l) of each resource in use, and X(s), task by task.
pub fn held_by(part: &Part) -> Held
    ensures { IsHeld part.now.m (subsystem_in part.now.m part.now.block.now) result }
{
    let mut each = [0u64; Table::MOST];
    let mut above = [0u64; Table::MOST];
    let mut largest: u64 = 0;
    let mut before: u64 = 0;
    for i in 0..count(part.block) {
        largest = with_task(part, i, before, &mut each, &mut above, largest);
        before += u64::from(work(part.block, i));
    }
    Held { each, largest }
}
