// A table laid out in a grid. Assumes nothing.
ghost use Rattle.std.specs.Prelude.{◌≡◌};
ghost use Rattle.table.specs.Grid.{system_in};
ghost use Rattle.rules.specs.Judged.{admitted};
ghost use Rattle.rules.specs.Rules.{counts_judged};

use table::grid::Grid;

// A grid with N and M, whose counts rule 1 has passed: so the rules behind it, and the steps behind them, index nothing that is
// not there.
#[derive(Clone, Copy)]
pub struct Laid<'a> {
    pub grid: &'a Grid,
    pub n: usize,
    pub m: usize,
    ghost counted: { counts_judged (system_in n m grid.now) ≡ admitted },
}
