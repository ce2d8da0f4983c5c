// The report of any table: the judgement, a row for each subsystem (crate `rows`), and acceptance. `analyse` has no `requires`.
// Every function here is proved, and the crate assumes nothing of its own.
#![tactic(auto)]

ghost use Rattle.std.specs.Prelude.{◌≡◌, false, replicate, Err};
ghost use Rattle.table.specs.Limits.{most};
ghost use Rattle.table.specs.Meaning.{meaning};
ghost use Rattle.table.specs.Grid.{system_in};
ghost use Rattle.rows.specs.Rows.{no_row};
ghost use Rattle.report.specs.Report.{report_of};

use judge::{judge_counts, judge_grid};
use row::Row;
use rules::{Broken, Judged};
use table::Table;
use table::grid::{BLOCK, LINE};

pub mod accepting;

// What a report is of: whoever asks for one names it here.
pub use judge::Laid;

// The report: the judgement, whether the table is accepted, and eight rows. Where the table is refused, and past its
// subsystems, rows are zero with outcome none.
#[derive(Clone, Copy)]
pub struct Report {
    pub judged: Judged,
    pub accepted: bool,
    pub rows: [Row; Table::MOST],
}

// The report of what is refused: the rule and the place, and no figure.
fn without_figures(broken: Broken) -> Report
    ensures { result ≡ record { judged = Err broken; accepted = false; rows = replicate most no_row } }
{
    Report {
        judged: Err(broken),
        accepted: false,
        rows: [rows::no_row(); Table::MOST],
    }
}

// The report of a table that is laid out in a grid, whose counts rule 1 has passed.
pub fn report_of(laid: &Laid) -> Report
    ensures { result ≡ report_of (system_in laid.now.n laid.now.m laid.now.grid.now) }
{
    let mut holdings = [[0u64; Table::MOST]; Table::MOST];
    if let Err(broken) = judge_grid(laid, &mut holdings) {
        return without_figures(broken);
    }
    let rows = rows::rows_of(laid.grid, laid.n, laid.m, &holdings);
    let accepted = accepting::all_accepted(rows, laid.n);
    Report {
        judged: Ok(()),
        accepted,
        rows,
    }
}

// The report of any table. A refused table gets the rule and the place, and no figure.
pub fn analyse(t: Table) -> Report
    ensures { result ≡ report_of (meaning t) }
{
    if let Err(broken) = judge_counts(t) {
        return without_figures(broken);
    }
    let mut grid = [[[0u32; LINE]; BLOCK]; Table::MOST];
    table::grid::lay_out(t, &mut grid);
    let laid = Laid {
        grid: &grid,
        n: usize::from(t.count),
        m: usize::from(t.resources),
    };
    report_of(&laid)
}
