// The writer: how long the file of a table is, and the file at the start of a lent buffer. Each field's writer is lent
// the part of the buffer from the next free byte on. Every function here is proved, and the crate assumes nothing of its
// own. `write_table` and `file_length` have no `requires`.
#![tactic(auto)]

mod put;

ghost use Rattle.std.specs.Prelude.{◌≡◌, ◌≤◌, length};
ghost use mathlib.Core.List.{flat_map};
ghost use Rattle.lists.specs.Range.{up_to};
ghost use Rattle.table.specs.Meaning.{meaning, subsystem_at};
ghost use Rattle.rules.specs.Slots.{CountedTable};
ghost use Rattle.stored.specs.File.{subsystem_bytes, file_of};
ghost use Rattle.stored.specs.Write.{IsPut, write_of, buffer_after};

use crate::put::{put_header, put_subsystem};
use judge::judge_counts;
use stored::decode::TASK_START;
use stored::fields::{HEADER_LENGTH, START, SUBSYSTEM_LENGTH};
use stored::number::NUMBER;
use stored::{Unwritten, WriteAnswer};
use table::Table;

// How many bytes the file of a table has. A subsystem that is counted past the last slot has no tasks.
pub fn file_length(t: Table) -> usize
    ensures { result ≡ length (file_of (meaning t)) }
{
    let m = usize::from(t.resources);
    let task_size = START + (TASK_START + NUMBER * m);
    let mut total = START + HEADER_LENGTH;
    // By index: the count may lie past the last slot, and a slice up to it would not be there.
    for s in 0..usize::from(t.count) {
        let tasks = if s < Table::MOST {
            usize::from(t.subsystems[s].count)
        } else {
            0
        };
        total += START + SUBSYSTEM_LENGTH + tasks * task_size;
    }
    total
}

// The subsystems of a table, each followed by its tasks.
fn put_subsystems(free: &mut [u8], t: Table) -> usize
    requires counted_table { CountedTable t }
    requires count_in_bounds { length (flat_map subsystem_bytes (up_to (subsystem_at t) t.count)) ≤ length free.old }
    ensures { IsPut (flat_map subsystem_bytes (up_to (subsystem_at t) t.count)) free.old free.new result }
{
    let m = usize::from(t.resources);
    let mut at = 0;
    for &sub in &t.subsystems[..usize::from(t.count)] {
        at += put_subsystem(&mut free[at..], sub, m);
    }
    at
}

// The file of a table: the header, and behind it the subsystems.
fn put_file(free: &mut [u8], t: Table) -> usize
    requires counted_table { CountedTable t }
    requires t_in_bounds { length (file_of (meaning t)) ≤ length free.old }
    ensures { IsPut (file_of (meaning t)) free.old free.new result }
{
    let mut at = put_header(free, t.count, t.resources);
    at += put_subsystems(&mut free[at..], t);
    at
}

// Writes the file of a table to the start of a buffer and leaves the rest of it. Refused with 1 where a count is out of
// range, then with 21 where the buffer is shorter than the file; the buffer is then as it was.
pub fn write_table(t: Table, buf: &mut [u8]) -> WriteAnswer
    ensures value { result ≡ write_of (meaning t) (length buf.old) }
    ensures buf_after { buf.new ≡ buffer_after (meaning t) buf.old }
{
    if let Err(broken) = judge_counts(t) {
        return Err(Unwritten::Uncounted(broken.place));
    }
    let len = file_length(t);
    if buf.len() < len {
        return Err(Unwritten::NoRoom);
    }
    Ok(put_file(buf, t))
}
