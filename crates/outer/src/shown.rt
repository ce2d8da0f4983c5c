// The interfaces of N subsystems over M resources, as one value that goes by reference; a lower line is a higher priority.
ghost use Rattle.std.specs.Prelude.{◌≤◌};
ghost use Rattle.table.specs.Limits.{most};
ghost use Rattle.outer.specs.Interfaces.{interfaces_in};
ghost use Rattle.outer.specs.Sound.{Sound};

use crate::interfaces::Lines;

// The first n lines are interfaces over the first m resources, and the rules leave of them what `Sound` says: its bounds on the counts
// stand beside it as facts of their own, which the check finds alone.
#[derive(Clone, Copy)]
pub struct Shown<'a> {
    pub lines: &'a Lines,
    pub n: usize,
    pub m: usize,
    ghost some: { 1 ≤ n },
    ghost few: { n ≤ most },
    ghost few_resources: { m ≤ most },
    ghost sound: { Sound (interfaces_in n m lines.now) },
}
