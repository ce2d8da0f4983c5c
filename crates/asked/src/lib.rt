// One job of a table, for a planner who wants to know why a row is late. `job_end` has no `requires`. Every function here is proved,
// and the crate assumes nothing.
#![tactic(auto)]

ghost use Rattle.std.specs.Prelude.{◌≡◌, ◌<◌};
ghost use Rattle.table.specs.Meaning.{meaning};
ghost use Rattle.table.specs.Grid.{system_in};
ghost use Rattle.outer.specs.Shown.{shown_by};
ghost use Rattle.job.specs.View.{view_of};
ghost use Rattle.asked.specs.Jobs.{end_of, job_end_of};

use ends::Known;
use judge::{Laid, judge_counts, judge_grid};
use outer::Shown;
use outer::interfaces::{WIDTH, held};
use rows::interface::interfaces_of;
use table::Table;
use table::grid::{BLOCK, LINE};

// The end of job k of the subsystem at index s; l = 0 asks for the end of its budget, l from 1 for its end with resource l.
fn end_of(known: &Known, s: usize, k: u32, l: usize) -> Option<u32>
    requires { s < known.now.shown.n }
    ensures { result ≡ end_of (view_of (shown_by known.now.shown) s) k l }
{
    if ends::jobs_of(known, s) <= k {
        return None;
    }
    if l == 0 {
        return Some(ends::budget_end(known, s, k));
    }
    if known.shown.m < l || held(known.shown.lines, s, l - 1) == 0 {
        return None;
    }
    Some(ends::job_end(known, s, k, l - 1))
}

// The same for a table that is laid out, for any s.
fn end_in_grid(laid: &Laid, s: usize, k: u32, l: usize) -> Option<u32>
    ensures { result ≡ job_end_of (system_in laid.now.n laid.now.m laid.now.grid.now) s k l }
{
    let mut holdings = [[0u64; Table::MOST]; Table::MOST];
    let Ok(()) = judge_grid(laid, &mut holdings) else {
        return None;
    };
    let n = laid.n;
    if s == 0 || n < s {
        return None;
    }
    let mut lines = [[0u32; WIDTH]; Table::MOST];
    interfaces_of(laid.grid, n, laid.m, &holdings, &mut lines);
    let shown = Shown {
        lines: &lines,
        n,
        m: laid.m,
    };
    let common = outer::in_common(&shown);
    let known = Known {
        shown,
        common: &common,
    };
    end_of(&known, s - 1, k, l)
}

// The end of job k of subsystem s with resource l, in ticks from the start of the active period; subsystems and resources
// count from 1, jobs from 0. l = 0 asks for the end of the job's budget. None where the table is refused, s is no
// subsystem, its row has no active period, k is no job of it, l is no resource, or the subsystem never holds l.
pub fn job_end(t: Table, s: u8, k: u32, l: u8) -> Option<u32>
    ensures { result ≡ job_end_of (meaning t) s k l }
{
    let Ok(()) = judge_counts(t) else {
        return None;
    };
    let mut grid = [[[0u32; LINE]; BLOCK]; Table::MOST];
    table::grid::lay_out(t, &mut grid);
    let laid = Laid {
        grid: &grid,
        n: usize::from(t.count),
        m: usize::from(t.resources),
    };
    end_in_grid(&laid, usize::from(s), k, usize::from(l))
}
