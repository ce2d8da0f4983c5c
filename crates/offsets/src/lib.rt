// What a file comes to and the figures of its report, as numbers of four bytes at fixed offsets: what callers in other languages are
// given. Every function here is proved, and the crate assumes nothing.
#![tactic(auto)]

use stored::number::NUMBER;
use table::Table;

pub mod figures;
pub mod judging;

// What a file comes to: document 01's number and the two numbers of its place (offset and 0 for a file, subsystem and task
// for a table); all 0 where the table is admitted.
#[derive(Clone, Copy)]
pub struct Judgement {
    pub number: u32,
    pub first: u32,
    pub second: u32,
}

// How many bytes the two numbers of a place take, and the figures of a report.
pub const PLACE_SIZE: usize = 2 * NUMBER;

pub const REPORT_SIZE: usize = NUMBER * (figures::HEAD_COUNT + Table::MOST * figures::ROW_COUNT);
