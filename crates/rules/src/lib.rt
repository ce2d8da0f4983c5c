// Rules 1 to 5: what breaks each of them at one place, and the first place of a subsystem that breaks one. Crate `judge`
// goes through them in their order.
#![tactic(auto)]

ghost use Rattle.std.specs.Prelude.{◌≡◌, ◌≤◌, ◌<◌};
ghost use Rattle.rules.specs.Refusal.{number_of};

use table::{Subsystem, Table};

pub mod breaks;
pub mod places;

// The rules, by what they are about, in the order in which they are judged.
#[derive(Clone, Copy, PartialEq, Eq, PartialOrd, Ord)]
pub enum Rule {
    Counts,
    Range,
    Order,
    Access,
    Overrun,
}

// The number that document 01 gives a rule.
impl From<Rule> for u32 {
    ghost from_gives = { λ rule n. n ≡ number_of rule };

    fn from(rule: Rule) -> u32 {
        match rule {
            Rule::Counts => 1,
            Rule::Range => 2,
            Rule::Order => 3,
            Rule::Access => 4,
            Rule::Overrun => 5,
        }
    }
}

// Where a rule is broken, as document 01 prints it: subsystems and tasks from 1; task 0 is the subsystem itself, and
// 0 0 the table as a whole.
#[derive(Clone, Copy)]
pub struct Place {
    pub subsystem: u8,
    pub task: u8,
}

// What a table is refused for: the rule that is broken, and where.
#[derive(Clone, Copy)]
pub struct Broken {
    pub rule: Rule,
    pub place: Place,
}

// The judge's answer: admitted, or refused. specs/Refusal.antt gives the number and place of each case.
pub type Judged = Result<(), Broken>;
