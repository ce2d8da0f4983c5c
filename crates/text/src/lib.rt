// What `check` prints, as bytes in a lent buffer. Every function here is proved, and the crate assumes nothing of its own.
// `check_text` has no `requires`; `check_text_in` asks for the shape of a grid, which its type gives.
#![tactic(auto)]

ghost use Rattle.std.specs.Prelude.{◌≡◌, ◌+◌, ◌*◌, ◌≤◌, length};
ghost use Rattle.lists.specs.Range.{join_to};
ghost use Rattle.lines.specs.Puts.{Puts};
ghost use Rattle.table.specs.Limits.{most};
ghost use Rattle.table.specs.Grid.{system_in, HasBlocks};
ghost use Rattle.rules.specs.Judged.{admitted};
ghost use Rattle.wording.specs.Lines.{verdict};
ghost use Rattle.wording.specs.Room.{line_most, text_room};
ghost use Rattle.text.specs.Text.{slot_line, report_text, table_text, text_of, IsPrinted};

use lines::Pen;
use report::{Laid, Report};
use row::Row;
use table::Table;
use table::grid::{BLOCK, Grid, LINE};
use wording::{put_refused_file, put_refused_table, put_row};

// Room for the text of any file.
pub const ROOM: usize = 2048;

// The first line of an admitted table.
fn put_verdict(pen: &mut Pen, accepted: bool)
    requires { pen.old.at + 9 ≤ length pen.old.buf.now }
    ensures { Puts pen.old (verdict accepted) pen.new }
{
    if accepted {
        pen.put_bytes(b"accepted\n");
    } else {
        pen.put_bytes(b"rejected\n");
    }
}

// The lines of the first n rows.
fn put_rows(pen: &mut Pen, rows: [Row; Table::MOST], n: usize)
    requires { (n ≤ most) × (pen.old.at + most * line_most ≤ length pen.old.buf.now) }
    ensures { Puts pen.old (join_to (slot_line rows) n) pen.new }
{
    for (s, row) in rows[..n].iter().enumerate() {
        put_row(pen, s, *row);
    }
}

// The text of a report on n subsystems.
fn put_report(pen: &mut Pen, report: Report, n: usize)
    requires n_le_most { report.judged ≡ admitted → n ≤ most }
    requires text_room_in_bounds { pen.old.at + text_room ≤ length pen.old.buf.now }
    ensures { Puts pen.old (report_text report n) pen.new }
{
    if let Err(broken) = report.judged {
        return put_refused_table(pen, broken);
    }
    put_verdict(pen, report.accepted);
    put_rows(pen, report.rows, n);
}

// The text of a table that is laid out in a grid, whose counts rule 1 has passed.
fn put_table(pen: &mut Pen, laid: &Laid)
    requires { pen.old.at + text_room ≤ length pen.old.buf.now }
    ensures { Puts pen.old (table_text (system_in laid.now.n laid.now.m laid.now.grid.now)) pen.new }
{
    let report = report::report_of(laid);
    put_report(pen, report, laid.n);
}

// The text of a file, which is read into the grid.
fn put_text(pen: &mut Pen, file: &[u8], grid: &mut Grid)
    requires has_blocks { HasBlocks grid.old }
    requires text_room_in_bounds { pen.old.at + text_room ≤ length pen.old.buf.now }
    ensures wrote { Puts pen.old (text_of file.now) pen.new }
    ensures has_blocks_2 { HasBlocks grid.new }
{
    match reader::read_grid(file, grid) {
        Err(misread) => put_refused_file(pen, stored::file_refusal(Err(misread))),
        Ok(head) => {
            let laid = Laid {
                grid,
                n: usize::from(head.count),
                m: usize::from(head.resources),
            };
            put_table(pen, &laid);
        }
    }
}

// The text of any file, as `check_text` leaves it, by way of a grid that the caller lends: one who asks for many texts makes
// the grid once. What the grid holds before and after means nothing.
pub fn check_text_in(file: &[u8], grid: &mut Grid, buf: &mut [u8]) -> Option<usize>
    requires { HasBlocks grid.old }
    ensures printed { IsPrinted file.now buf.old buf.new result }
    ensures has_blocks { HasBlocks grid.new }
{
    if buf.len() < ROOM {
        return None;
    }
    let mut pen = Pen { buf, at: 0 };
    put_text(&mut pen, file, grid);
    Some(pen.at)
}

// The text of any file, left at the start of the buffer: the refusal of the file, the refusal of its table, or the verdict
// and a line for each subsystem. Gives how many bytes it has; bytes behind it stay as they were. A buffer of fewer than
// `ROOM` bytes is too short for some text: it is left as it was, whatever the file, and there is no length.
pub fn check_text(file: &[u8], buf: &mut [u8]) -> Option<usize>
    ensures { IsPrinted file.now buf.old buf.new result }
{
    let mut grid = [[[0u32; LINE]; BLOCK]; Table::MOST];
    check_text_in(file, &mut grid, buf)
}
