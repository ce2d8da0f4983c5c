// Interfaces as lines of numbers, which go by reference: line s is P(s), Q(s), and X(s, l) for each resource l. Lines and
// holding times past the counts may hold anything. The caller keeps each index within the table's limit. Each quantity has a function
// with the rules' name for it.
ghost use Rattle.std.specs.Prelude.{◌≡◌, ◌<◌};
ghost use Rattle.table.specs.Limits.{most};
ghost use Rattle.outer.specs.Interfaces.{period_at, budget_at, held_at};

use table::Table;

// How many numbers a line has.
pub const WIDTH: usize = 2 + Table::MOST;

// The lines of all subsystems.
pub type Lines = [[u32; WIDTH]; Table::MOST];

// P(s).
pub fn period(lines: &Lines, s: usize) -> u32
    requires { s < most }
    ensures { result ≡ period_at lines.now s }
{
    lines[s][0]
}

// Q(s).
pub fn budget(lines: &Lines, s: usize) -> u32
    requires { s < most }
    ensures { result ≡ budget_at lines.now s }
{
    lines[s][1]
}

// X(s, l): how long subsystem s may hold resource l, 0 meaning no access.
pub fn held(lines: &Lines, s: usize, l: usize) -> u32
    requires { (s < most) × (l < most) }
    ensures { result ≡ held_at lines.now s l }
{
    lines[s][l + 2]
}
