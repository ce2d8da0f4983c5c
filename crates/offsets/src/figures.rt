// A report's figures, written as numbers of four bytes one after another: each function is lent the buffer from the next
// free byte on, puts its bytes at the start, leaves the rest, and says how many it put; room is asked of each call. Assumes nothing.
ghost use Rattle.std.specs.Prelude.{◌≡◌, ◌*◌, ◌≤◌, length};
ghost use mathlib.Core.List.{flat_map};
ghost use Rattle.table.specs.Limits.{most};
ghost use Rattle.stored.specs.Numbers.{number_size};
ghost use Rattle.stored.specs.File.{number_bytes};
ghost use Rattle.stored.specs.Write.{IsPut};
ghost use Rattle.offsets.specs.Figures.{outcome_number, flag, row_figures, head_figures, figures, counted, figures_of, figures_in, head_count, row_count, report_size};
ghost use Rattle.offsets.specs.Judgement.{place_size, place_bytes};

use crate::Judgement;
use crate::judging::{file_judgement, table_judgement};
use judge::Laid;
use report::Report;
use row::{Outcome, Row};
use rows::no_row;
use rules::Judged;
use stored::number::put_numbers;
use table::Table;
use table::grid::{BLOCK, LINE};
use wording::response;

// How many figures stand before the rows, and in a row.
pub const HEAD_COUNT: usize = 5;

pub const ROW_COUNT: usize = 9;

// An outcome as a number: bindings/c/bay.h tells callers in C of it.
fn outcome_number(outcome: Outcome) -> u32
    ensures { result ≡ outcome_number outcome }
{
    match outcome {
        Outcome::None => 0,
        Outcome::Fits(_) => 1,
        Outcome::Late(_) => 2,
    }
}

// An acceptance as a number.
fn flag_number(accepted: bool) -> u32
    ensures { result ≡ flag accepted }
{
    u32::from(accepted)
}

// N as a report states it.
fn stated_count(judged: Judged, n: u8) -> u32
    ensures { result ≡ counted judged n }
{
    match judged {
        Ok(()) => u32::from(n),
        Err(_) => 0,
    }
}

// The figures before the rows.
fn put_head(free: &mut [u8], j: Judgement, accepted: bool, n: u32) -> usize
    requires { number_size * head_count ≤ length free.old }
    ensures { IsPut (flat_map number_bytes (head_figures j accepted n)) free.old free.new result }
{
    let numbers = [j.number, j.first, j.second, flag_number(accepted), n];
    put_numbers(free, &numbers)
}

// The figures of a row.
fn put_row(free: &mut [u8], row: Row) -> usize
    requires { number_size * row_count ≤ length free.old }
    ensures { IsPut (flat_map number_bytes (row_figures row)) free.old free.new result }
{
    let numbers = [
        row.holding,
        row.failing,
        row.blocking,
        row.active,
        row.jobs,
        response(row.outcome),
        row.job,
        row.resource,
        outcome_number(row.outcome),
    ];
    put_numbers(free, &numbers)
}

// The figures of all rows.
fn put_rows(free: &mut [u8], rows: [Row; Table::MOST]) -> usize
    requires { number_size * (most * row_count) ≤ length free.old }
    ensures { IsPut (flat_map number_bytes (flat_map row_figures rows)) free.old free.new result }
{
    let mut at = 0;
    for row in rows {
        at += put_row(&mut free[at..], row);
    }
    at
}

// All figures.
fn put_figures(
    free: &mut [u8],
    j: Judgement,
    accepted: bool,
    n: u32,
    rows: [Row; Table::MOST],
) -> usize
    requires { report_size ≤ length free.old }
    ensures { IsPut (flat_map number_bytes (figures j accepted n rows)) free.old free.new result }
{
    let mut at = put_head(free, j, accepted, n);
    at += put_rows(&mut free[at..], rows);
    at
}

// The figures of a report on n subsystems.
fn put_report(free: &mut [u8], report: Report, n: u8) -> usize
    requires { report_size ≤ length free.old }
    ensures { IsPut (flat_map number_bytes (figures_of report n)) free.old free.new result }
{
    let j = table_judgement(report.judged);
    let count = stated_count(report.judged, n);
    put_figures(free, j, report.accepted, count, report.rows)
}

// The figures of any file. A refused file has its judgement and no figure.
pub fn put_file(free: &mut [u8], file: &[u8]) -> usize
    requires { report_size ≤ length free.old }
    ensures { IsPut (flat_map number_bytes (figures_in file.now)) free.old free.new result }
{
    let mut grid = [[[0u32; LINE]; BLOCK]; Table::MOST];
    match reader::read_grid(file, &mut grid) {
        Err(misread) => {
            let j = file_judgement(stored::file_refusal(Err(misread)));
            put_figures(free, j, false, 0, [no_row(); Table::MOST])
        }
        Ok(head) => {
            let laid = Laid {
                grid: &grid,
                n: usize::from(head.count),
                m: usize::from(head.resources),
            };
            put_report(free, report::report_of(&laid), head.count)
        }
    }
}

// The two numbers of a judgement's place.
pub fn put_place(free: &mut [u8], j: Judgement) -> usize
    requires { place_size ≤ length free.old }
    ensures { IsPut (place_bytes j) free.old free.new result }
{
    let numbers = [j.first, j.second];
    put_numbers(free, &numbers)
}
