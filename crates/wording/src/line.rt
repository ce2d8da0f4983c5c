// The lines of the text, each put where the pen stands, behind what its buffer holds already. That there is room for a line is
// the caller's to show.
ghost use Rattle.std.specs.Prelude.{◌≡◌, ◌++◌, ◌+◌, ◌≤◌, ◌<◌, length};
ghost use Rattle.lines.specs.Decimal.{decimal};
ghost use Rattle.lines.specs.Puts.{Puts};
ghost use Rattle.row.specs.Row.{reported};
ghost use Rattle.table.specs.Limits.{most};
ghost use Rattle.wording.specs.Lines.{outcome_word, row_start, row_end, row_line};
ghost use Rattle.wording.specs.Room.{start_most, end_most, line_most};

use lines::Pen;
use row::{Outcome, Row};

// A word, and a number behind it.
pub fn put_figure(pen: &mut Pen, label: &[u8], n: u32)
    requires { pen.old.at + length label.now + 10 ≤ length pen.old.buf.now }
    ensures { Puts pen.old (label.now ++ decimal n) pen.new }
{
    pen.put_bytes(label);
    pen.put_number(n);
}

// The last word of a row.
fn put_outcome(pen: &mut Pen, outcome: Outcome)
    requires { pen.old.at + 6 ≤ length pen.old.buf.now }
    ensures { Puts pen.old (outcome_word outcome) pen.new }
{
    match outcome {
        Outcome::Fits(_) => pen.put_bytes(b" fits\n"),
        Outcome::Late(_) => pen.put_bytes(b" late\n"),
        Outcome::None => pen.put_bytes(b" none\n"),
    }
}

// R, as the row's outcome holds it; 0 where there is none.
pub fn response(outcome: Outcome) -> u32
    ensures { result ≡ reported outcome }
{
    match outcome {
        Outcome::Fits(r) | Outcome::Late(r) => r,
        Outcome::None => 0,
    }
}

// The front of a row's line: the subsystem's number, and the figures that stand before any job is looked at.
fn put_row_start(pen: &mut Pen, s: usize, row: Row)
    requires { (s < most) × (pen.old.at + start_most ≤ length pen.old.buf.now) }
    ensures { Puts pen.old (row_start s row) pen.new }
{
    pen.put_number((s + 1) as u32);
    put_figure(pen, b" X ", row.holding);
    put_figure(pen, b" local ", row.failing);
    put_figure(pen, b" B ", row.blocking);
    put_figure(pen, b" L ", row.active);
}

// The rest of a row's line: the figures of its jobs, and the outcome.
fn put_row_end(pen: &mut Pen, row: Row)
    requires { pen.old.at + end_most ≤ length pen.old.buf.now }
    ensures { Puts pen.old (row_end row) pen.new }
{
    put_figure(pen, b" jobs ", row.jobs);
    put_figure(pen, b" R ", response(row.outcome));
    put_figure(pen, b" job ", row.job);
    put_figure(pen, b" res ", row.resource);
    put_outcome(pen, row.outcome);
}

// The line of the subsystem at index s.
pub fn put_row(pen: &mut Pen, s: usize, row: Row)
    requires { (s < most) × (pen.old.at + line_most ≤ length pen.old.buf.now) }
    ensures { Puts pen.old (row_line s row) pen.new }
{
    put_row_start(pen, s, row);
    put_row_end(pen, row);
}
