// What a table's kind says of every table that a program holds. Assumes nothing.
ghost use Rattle.table.specs.Meaning.{meaning};
ghost use Rattle.stored.specs.Held.{Held};

use table::Table;

// Each time and each access of the table is a number that four bytes spell. There is nothing to do: the contract hands
// the fact to whoever holds the table, and the theorems on reading back what was written ask for it.
pub fn table_is_held(t: Table)
    ensures { Held (meaning t) }
{}
