// The interfaces of an admitted table: what the other subsystems see of each, as lines of numbers. The holding times are those
// that rule 5 has left.
ghost use Rattle.std.specs.Prelude.{◌≡◌, length};
ghost use Rattle.lists.specs.Range.{padded};
ghost use Rattle.table.specs.Limits.{most};
ghost use Rattle.table.specs.Grid.{subsystem_in, system_in};
ghost use Rattle.holding.specs.Holding.{resource_holding};
ghost use Rattle.holding.specs.Held.{HeldIn};
ghost use Rattle.rules.specs.Admitted.{SoundSystem};
ghost use Rattle.outer.specs.Interfaces.{interfaces_in};
ghost use Rattle.rows.specs.Interfaces.{interfaces_from};
ghost use Rattle.rows.specs.Slots.{SoundSlot, Shows};

use outer::interfaces::{Lines, WIDTH};
use table::Table;
use table::grid::{Block, Grid, budget, period};

// The interface of one subsystem.
fn interface_of(block: &Block, m: usize, held: &[u64; Table::MOST]) -> [u32; WIDTH]
    requires sound_slot { SoundSlot block.now m }
    requires held_value { held.now ≡ padded (resource_holding (subsystem_in m block.now)) 0 most m }
    ensures { Shows m block.now result }
{
    let mut line = [0u32; WIDTH];
    line[0] = period(block);
    line[1] = budget(block);
    for l in 0..m {
        line[l + 2] = held[l] as u32;
    }
    line
}

// The interfaces of all subsystems, whatever the lines held.
pub fn interfaces_of(
    grid: &Grid,
    n: usize,
    m: usize,
    holdings: &[[u64; Table::MOST]; Table::MOST],
    lines: &mut Lines,
)
    requires sound_system { SoundSystem (system_in n m grid.now) }
    requires held_in { HeldIn (system_in n m grid.now) holdings.now }
    requires lines_len { length lines.old ≡ most }
    ensures { interfaces_in n m lines.new ≡ interfaces_from (system_in n m grid.now) }
{
    for s in 0..n {
        lines[s] = interface_of(&grid[s], m, &holdings[s]);
    }
}
