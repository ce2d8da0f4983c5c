// The rows of an admitted table, filled subsystem by subsystem from its interfaces. Every function here is proved, and the crate
// assumes nothing.
#![tactic(auto)]

pub mod interface;

ghost use Rattle.std.specs.Prelude.{◌≡◌};
ghost use Rattle.lists.specs.Range.{padded};
ghost use Rattle.table.specs.Limits.{most};
ghost use Rattle.table.specs.Grid.{system_in};
ghost use Rattle.holding.specs.Held.{HeldIn};
ghost use Rattle.rules.specs.Admitted.{SoundSystem};
ghost use Rattle.rows.specs.Rows.{no_row, row_at};

use crate::interface::interfaces_of;
use holding::Part;
use least::LoadList;
use local::first_failing_task;
use outer::Shown;
use outer::interfaces::WIDTH;
use row::{Outcome, Row};
use search::Asking;
use table::Table;
use table::grid::{Grid, budget, period};

// The row past the last subsystem.
pub fn no_row() -> Row
    ensures { result ≡ no_row }
{
    Row {
        holding: 0,
        failing: 0,
        blocking: 0,
        active: 0,
        jobs: 0,
        job: 0,
        resource: 0,
        outcome: Outcome::None,
    }
}

// The rows of all subsystems, and rows of zeros behind them. The giving ends X ticks before the period, and Q + X is what
// the rows share.
pub fn rows_of(
    grid: &Grid,
    n: usize,
    m: usize,
    holdings: &[[u64; Table::MOST]; Table::MOST],
) -> [Row; Table::MOST]
    requires sound_system { SoundSystem (system_in n m grid.now) }
    requires held_in { HeldIn (system_in n m grid.now) holdings.now }
    ensures { result ≡ padded (row_at (system_in n m grid.now)) no_row most n }
{
    let mut lines = [[0u32; WIDTH]; Table::MOST];
    interfaces_of(grid, n, m, holdings, &mut lines);
    let shown = Shown {
        lines: &lines,
        n,
        m,
    };
    let common = outer::in_common(&shown);
    let fits = outer::fitting_of(&common, n);
    let asking = Asking {
        loads: LoadList {
            periods: &common.periods[..n],
            costs: &common.costs[..n],
        },
        frees: &common.frees[..n],
    };
    let ceilings = &common.ceilings[..m];
    let mut rows = [no_row(); Table::MOST];
    for s in 0..n {
        let block = &grid[s];
        let part = Part { block, m };
        let end = period(block) - (common.costs[s] - budget(block));
        let failing = first_failing_task(&part, &holdings[s], end);
        let blocked = common.blockings[s];
        rows[s] = global::row_of(
            &shown,
            &asking,
            ceilings,
            blocked,
            fits,
            s,
            u32::from(failing),
        );
    }
    rows
}
