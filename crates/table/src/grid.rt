// A table as a grid of numbers, which the reader fills with no table between, and of which the laws of reading and judging speak
// (docs/DECISIONS.md 15): a block for each subsystem, and in it a line for the subsystem itself, P, Q and n, and one for
// each task, T, C, D and its accesses. Whoever computes is lent the grid or a block of it, and copies nothing. Each quantity has a
// function with the rules' name for it; a const parameter for its place would say less. Assumes nothing.
ghost use Rattle.std.specs.Prelude.{◌≡◌, ◌≤◌, ◌<◌};
ghost use Rattle.table.specs.Limits.{most};
ghost use Rattle.table.specs.Meaning.{meaning};
ghost use Rattle.table.specs.Grid.{system_in, period_in, budget_in, count_in, separation_in, work_in, deadline_in, access_in, IsLine, HasLines, HasBlocks, HasRoom, LineOf, BlockOf};

use crate::{Subsystem, Table, Task};

// How many numbers a line has, and how many lines a block.
pub const LINE: usize = 3 + Table::MOST;

pub const BLOCK: usize = 1 + Table::MOST;

// The numbers of a subsystem itself, or of one of its tasks.
pub type Line = [u32; LINE];

// A subsystem: its own line, and behind it one for each task.
pub type Block = [Line; BLOCK];

// A table: a block for each subsystem. Of a lent grid the check knows how many blocks it has and not how long their lines are, though the
// type has both: whoever writes into one asks for `HasBlocks` or `HasLines` and hands it on.
pub type Grid = [Block; Table::MOST];

// P.
pub fn period(block: &Block) -> u32
    ensures { result ≡ period_in block.now }
{
    block[0][0]
}

// Q.
pub fn budget(block: &Block) -> u32
    ensures { result ≡ budget_in block.now }
{
    block[0][1]
}

// n.
pub fn count(block: &Block) -> usize
    ensures { result ≡ count_in block.now }
{
    block[0][2] as usize
}

// T of the task at index i.
pub fn separation(block: &Block, i: usize) -> u32
    requires { i < most }
    ensures { result ≡ separation_in block.now i }
{
    block[i + 1][0]
}

// C.
pub fn work(block: &Block, i: usize) -> u32
    requires { i < most }
    ensures { result ≡ work_in block.now i }
{
    block[i + 1][1]
}

// D.
pub fn deadline(block: &Block, i: usize) -> u32
    requires { i < most }
    ensures { result ≡ deadline_in block.now i }
{
    block[i + 1][2]
}

// c(i, l).
pub fn access(block: &Block, i: usize, l: usize) -> u32
    requires { (i < most) × (l < most) }
    ensures { result ≡ access_in block.now i l }
{
    block[i + 1][l + 3]
}

// The line of a task.
fn line_of(task: Task) -> Line
    ensures { LineOf most task result × IsLine result }
{
    [
        task.separation,
        task.work,
        task.deadline,
        task.access[0],
        task.access[1],
        task.access[2],
        task.access[3],
        task.access[4],
        task.access[5],
        task.access[6],
        task.access[7],
    ]
}

// Lays a subsystem out in a block. Lines past its tasks stay as they were.
pub fn lay_out_subsystem(sub: Subsystem, block: &mut Block)
    requires { (sub.count ≤ most) × HasLines block.old }
    ensures { BlockOf sub block.new × HasLines block.new }
{
    block[0] = [
        sub.period,
        sub.budget,
        u32::from(sub.count),
        0,
        0,
        0,
        0,
        0,
        0,
        0,
        0,
    ];
    for i in 0..usize::from(sub.count) {
        block[i + 1] = line_of(sub.tasks[i]);
    }
}

// Lays a table out in a grid, whatever the grid held. Blocks past its subsystems stay as they were.
pub fn lay_out(t: Table, grid: &mut Grid)
    requires { HasRoom t × HasBlocks grid.old }
    ensures { system_in t.count t.resources grid.new ≡ meaning t }
{
    for s in 0..usize::from(t.count) {
        lay_out_subsystem(t.subsystems[s], &mut grid[s]);
    }
}
