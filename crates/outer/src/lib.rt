// Steps 1, 2 and 6 as far as interfaces show them, and what the rows of all subsystems share. An interface is all that the other
// subsystems see of one: its period, its budget and how long it may hold each resource. N interfaces over M resources go by
// reference, as lines of numbers (module `interfaces`) with N and M (`Shown`); a lower line is a higher priority. Every
// function here is proved, and the crate assumes nothing. Indices count from 0; document 01 counts from 1.
#![tactic(auto)]

mod blocking;
mod ceilings;
pub mod interfaces;
pub mod leading;
mod shown;

pub use ceilings::{Common, fitting_of, in_common};
pub use shown::Shown;
