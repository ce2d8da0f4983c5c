// What one subsystem has before it, as one value: what its searches ask, what it may hold of each resource, and its own numbers.
ghost use Rattle.std.specs.Prelude.{◌+◌};
ghost use Rattle.search.specs.After.{Frees};
ghost use Rattle.job.specs.Computed.{seen_by};
ghost use Rattle.job.specs.Sound.{SoundView};

use crate::Own;
use search::Asking;

// What a subsystem sees: the loads of all subsystems with what each leaves free, X(s, l) and RC(l) of each resource, and its own numbers.
// They come from sound interfaces, and the loads up to its own leave free what they are said to leave.
#[derive(Clone, Copy)]
pub struct Seen<'a> {
    pub asking: Asking<'a>,
    pub holdings: &'a [u32],
    pub ceilings: &'a [usize],
    pub own: Own,
    ghost sound: { SoundView (seen_by asking.loads.periods.now asking.loads.costs.now holdings.now ceilings.now own) },
    ghost free: { Frees asking.loads.periods.now asking.loads.costs.now asking.frees.now (own.place + 1) },
}
