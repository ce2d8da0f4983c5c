// The reader: the judge, the walk and the decoder at each field, in the order of the fields. At each field the part of
// the file from the current offset on goes to the judge, and a refusal leaves early. What is read goes into a grid that the
// caller lends, so that no table is copied. What is asked of counts and places is about a call and its file, and so stands with each
// function and in no type. Assumes nothing.
ghost use Rattle.std.specs.Prelude.{◌≡◌, [], ◌≤◌, length, get_or, Err, IsErr};
ghost use Rattle.table.specs.Limits.{most};
ghost use Rattle.table.specs.Grid.{HasLines, HasBlocks};
ghost use Rattle.stored.specs.Read.{refused_at, whole_unless, header_in, head_at, task_place, subsystem_place, tasks_refusal, refusal_from};
ghost use Rattle.stored.specs.HeadLine.{HeadLine};
ghost use Rattle.reader.specs.Reader.{IsPart, IsBody, IsHead};

use crate::Head;
use stored::decode::{TASK_START, decode_subsystem, decode_task};
use stored::fields::{
    HEADER_LENGTH, START, SUBSYSTEM_LENGTH, TASK, judge, judge_header, judge_subsystem, value,
};
use stored::number::NUMBER;
use stored::{Fault, FieldAnswer, Misread, ReadAnswer};
use table::grid::{Block, Grid, count};

// Why the file is refused where what stands at an offset is faulty.
fn misread_at(answer: FieldAnswer, at: usize) -> Misread
    requires faulty { IsErr answer }
    ensures { Err result ≡ whole_unless (refused_at at answer) }
{
    Misread {
        fault: answer.unwrap_err(),
        offset: at,
    }
}

// Reads the n tasks of the subsystem whose field stands at `at` into the block; the block's own line is that field's. Gives
// the offset behind them.
fn read_tasks(
    file: &[u8],
    at: usize,
    n: usize,
    m: usize,
    block: &mut Block,
) -> Result<usize, Misread>
    requires m_le_most { (m ≤ most) × ((n ≤ most) × (n ≡ (head_at file.now at).count)) }
    requires at_in_bounds { (task_place m at 0 ≤ length file.now) × HasLines block.old }
    requires head_line { HeadLine (head_at file.now at) (get_or block.old 0 []) }
    ensures { IsPart (tasks_refusal file.now m at) file.now m at block.new result }
{
    let mut place = at + (START + SUBSYSTEM_LENGTH);
    // By index, not over `&mut block[1..]`: the laws say what is read of the first i tasks of the whole block.
    for i in 0..n {
        let rest = &file[place..];
        let answer = judge(rest, TASK, TASK_START + NUMBER * m);
        let Ok(len) = answer else {
            return Err(misread_at(answer, place));
        };
        decode_task(value(rest, len), m, &mut block[i + 1]);
        place += START + len;
    }
    Ok(place)
}

// Reads the subsystem whose field stands at `at`, with its tasks, into the block. Gives the offset behind them.
fn read_subsystem(file: &[u8], at: usize, m: usize, block: &mut Block) -> Result<usize, Misread>
    requires { (m ≤ most) × ((at ≤ length file.now) × HasLines block.old) }
    ensures { IsPart (refusal_from file.now m at) file.now m at block.new result }
{
    let rest = &file[at..];
    let answer = judge_subsystem(rest);
    let Ok(len) = answer else {
        return Err(misread_at(answer, at));
    };
    decode_subsystem(value(rest, len), &mut block[0]);
    read_tasks(file, at, count(block), m, block)
}

// Reads the n subsystems behind the header, which gives the two counts, into the grid.
fn read_subsystems(file: &[u8], n: usize, m: usize, grid: &mut Grid) -> ReadAnswer
    requires n_le_most { (n ≤ most) × (n ≡ (header_in file.now).count) }
    requires m_le_most { (m ≤ most) × (m ≡ (header_in file.now).resources) }
    requires m_in_bounds { (subsystem_place file.now m 0 ≤ length file.now) × HasBlocks grid.old }
    ensures { IsBody file.now n m grid.new result }
{
    let mut at = START + HEADER_LENGTH;
    // By index, not over `&mut grid[..n]`: the laws say what is read of the first s subsystems of the whole grid.
    for s in 0..n {
        at = read_subsystem(file, at, m, &mut grid[s])?;
    }
    if at < file.len() {
        return Err(misread_at(Err(Fault::LeftOver), at));
    }
    Ok(())
}

// Reads a table from any bytes into the grid, whatever the grid held, and gives its N and M. Refused, with number and offset,
// is whatever is not exactly the file of a table with counts in range; what the grid holds then means nothing.
pub fn read_grid(file: &[u8], grid: &mut Grid) -> Result<Head, Misread>
    requires { HasBlocks grid.old }
    ensures { IsHead file.now grid.new result }
{
    // The part from the current offset on, as at every field; here the offset is 0.
    let rest = &file[0..];
    let answer = judge_header(rest);
    let Ok(len) = answer else {
        return Err(misread_at(answer, 0));
    };
    let header = value(rest, len);
    let n = usize::from(header[1]);
    let m = usize::from(header[2]);
    read_subsystems(file, n, m, grid)?;
    // The header's two bytes are looked at again. Made up before, the head would be one number of two bytes to the compiler, and
    // it would no longer know M's half to be at most 8, by which it lays out the steps over a task's accesses.
    Ok(Head {
        count: header[1],
        resources: header[2],
    })
}
