// Step 12: a table is accepted when every task passes and every row fits. The rows are the report's eight, of which the first n count.
ghost use Rattle.std.specs.Prelude.{◌≡◌, ◌≤◌};
ghost use Rattle.lists.specs.Range.{all_to};
ghost use Rattle.table.specs.Limits.{most};
ghost use Rattle.report.specs.Report.{fits, row_accepted, slot_accepted};

use row::{Outcome, Row};
use table::Table;

// Whether a row fits.
pub fn row_fits(outcome: Outcome) -> bool
    ensures { result ≡ fits outcome }
{
    matches!(outcome, Outcome::Fits(_))
}

// Whether a row's tasks all pass and it fits.
pub fn is_accepted(row: Row) -> bool
    ensures { result ≡ row_accepted row }
{
    row.failing == 0 && row_fits(row.outcome)
}

// Whether each of the first n rows is accepted.
pub fn all_accepted(rows: [Row; Table::MOST], n: usize) -> bool
    requires { n ≤ most }
    ensures { result ≡ all_to (slot_accepted rows) n }
{
    rows[..n].iter().all(|row| is_accepted(*row))
}
