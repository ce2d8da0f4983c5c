// Interfaces with what is known of them once for all jobs, as one value that goes by reference.
ghost use Rattle.std.specs.Prelude.{◌≡◌};
ghost use Rattle.outer.specs.Interfaces.{interfaces_in};
ghost use Rattle.outer.specs.Common.{common_of};

use outer::{Common, Shown};

// The interfaces, and what the rows of all subsystems share.
#[derive(Clone, Copy)]
pub struct Known<'a> {
    pub shown: Shown<'a>,
    pub common: &'a Common,
    ghost common_value: { common.now ≡ common_of (interfaces_in shown.n shown.m shown.lines.now) },
}
