// The lines of refusal: of a refused table, and of a refused file. That there is room for a line is the caller's to show.
ghost use Rattle.std.specs.Prelude.{◌≡◌, ◌+◌, ◌^◌, ◌≤◌, ◌<◌, length, Err};
ghost use Rattle.lines.specs.Puts.{Puts};
ghost use Rattle.rules.specs.Refusal.{refusal};
ghost use Rattle.wording.specs.Lines.{refused_table, refused_file};
ghost use Rattle.wording.specs.Room.{line_most};

use crate::line::put_figure;
use lines::Pen;
use rules::Broken;
use stored::FileRefusal;

// The line of a table that is refused, with the rule's number and the place.
pub fn put_refused_table(pen: &mut Pen, broken: Broken)
    requires { pen.old.at + line_most ≤ length pen.old.buf.now }
    ensures { Puts pen.old (refused_table (refusal (Err broken))) pen.new }
{
    put_figure(pen, b"refused ", u32::from(broken.rule));
    put_figure(pen, b" at ", u32::from(broken.place.subsystem));
    put_figure(pen, b" ", u32::from(broken.place.task));
    pen.put_bytes(b"\n");
}

// The line of a refused file.
pub fn put_refused_file(pen: &mut Pen, refusal: FileRefusal)
    requires { (refusal.offset < 2 ^ 32) × (pen.old.at + line_most ≤ length pen.old.buf.now) }
    ensures { Puts pen.old (refused_file refusal) pen.new }
{
    put_figure(pen, b"refused ", u32::from(refusal.number));
    put_figure(pen, b" at ", refusal.offset as u32);
    pen.put_bytes(b"\n");
}
