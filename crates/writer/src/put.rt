// The writers of the fields. Each is lent the free bytes from the next free one on, puts its bytes at their start, leaves
// the rest as it was, and says how many it put. Counts and room are asked of each call and not of a type: the free end grows shorter from
// field to field. The loops over tasks and subsystems are three lines each; a generic one would have to be handed M beside each element.
// Assumes nothing.
ghost use mathlib.Core.List.{[], ◌∷◌, flat_map, ◌++◌};
ghost use Rattle.std.specs.Prelude.{◌+◌, ◌*◌, ◌≤◌, ◌<◌, length};
ghost use Rattle.lists.specs.Range.{up_to};
ghost use Rattle.table.specs.Limits.{most};
ghost use Rattle.table.specs.Meaning.{access_at, task_m, task_at, subsystem_m};
ghost use Rattle.stored.specs.Numbers.{big_endian, number_size};
ghost use Rattle.stored.specs.Field.{start_size, field_size, field, header_tag, header_length, subsystem_tag, subsystem_length, task_length};
ghost use Rattle.stored.specs.File.{number_bytes, header_value, times_bytes, subsystem_value, task_value, task_field, subsystem_bytes};
ghost use Rattle.stored.specs.Write.{IsPut};

use stored::decode::TASK_START;
use stored::fields::{HEADER, HEADER_LENGTH, START, SUBSYSTEM, SUBSYSTEM_LENGTH, TASK, VERSION};
use stored::number::{NUMBER, put_number, put_numbers};
use table::{Subsystem, Task};

// Tag and length.
fn put_start(free: &mut [u8], tag: u8, len: usize) -> usize
    requires { start_size ≤ length free.old }
    ensures { IsPut ((tag ∷ []) ++ big_endian 2 len) free.old free.new result }
{
    let [.., high, low] = len.to_be_bytes();
    free[..START].copy_from_slice(&[tag, high, low]);
    START
}

fn put_header_value(free: &mut [u8], n: u8, m: u8) -> usize
    requires { header_length ≤ length free.old }
    ensures { IsPut (header_value n m) free.old free.new result }
{
    free[..HEADER_LENGTH].copy_from_slice(&[VERSION, n, m]);
    HEADER_LENGTH
}

// The header's field.
pub fn put_header(free: &mut [u8], n: u8, m: u8) -> usize
    requires { field_size header_length ≤ length free.old }
    ensures { IsPut (field header_tag (header_value n m)) free.old free.new result }
{
    let mut at = put_start(free, HEADER, HEADER_LENGTH);
    at += put_header_value(&mut free[at..], n, m);
    at
}

// The accesses to the first m resources.
fn put_accesses(free: &mut [u8], task: Task, m: usize) -> usize
    requires { (m ≤ most) × (length (flat_map number_bytes (up_to (access_at task) m)) ≤ length free.old) }
    ensures { IsPut (flat_map number_bytes (up_to (access_at task) m)) free.old free.new result }
{
    put_numbers(free, &task.access[..m])
}

// Two numbers.
fn put_pair(free: &mut [u8], x: u32, y: u32) -> usize
    requires { 2 * number_size ≤ length free.old }
    ensures { IsPut (number_bytes x ++ number_bytes y) free.old free.new result }
{
    let mut at = put_number(free, x);
    at += put_number(&mut free[at..], y);
    at
}

fn put_times(free: &mut [u8], task: Task) -> usize
    requires { task_length 0 ≤ length free.old }
    ensures { IsPut (times_bytes task.separation task.work task.deadline) free.old free.new result }
{
    let mut at = put_pair(free, task.separation, task.work);
    at += put_number(&mut free[at..], task.deadline);
    at
}

fn put_task_value(free: &mut [u8], task: Task, m: usize) -> usize
    requires { (m ≤ most) × (task_length m ≤ length free.old) }
    ensures { IsPut (task_value (task_m m task)) free.old free.new result }
{
    let mut at = put_times(free, task);
    at += put_accesses(&mut free[at..], task, m);
    at
}

// A task's field.
fn put_task(free: &mut [u8], task: Task, m: usize) -> usize
    requires { (m ≤ most) × (field_size (task_length m) ≤ length free.old) }
    ensures { IsPut (task_field (task_m m task)) free.old free.new result }
{
    let mut at = put_start(free, TASK, TASK_START + NUMBER * m);
    at += put_task_value(&mut free[at..], task, m);
    at
}

// One byte.
fn put_byte(free: &mut [u8], x: u8) -> usize
    requires { 1 ≤ length free.old }
    ensures { IsPut (x ∷ []) free.old free.new result }
{
    free[0] = x;
    1
}

fn put_subsystem_value(free: &mut [u8], sub: Subsystem) -> usize
    requires { subsystem_length ≤ length free.old }
    ensures { IsPut (subsystem_value sub.period sub.budget sub.count) free.old free.new result }
{
    let mut at = put_pair(free, sub.period, sub.budget);
    at += put_byte(&mut free[at..], sub.count);
    at
}

// A subsystem's own field.
fn put_subsystem_field(free: &mut [u8], sub: Subsystem) -> usize
    requires { field_size subsystem_length ≤ length free.old }
    ensures { IsPut (field subsystem_tag (subsystem_value sub.period sub.budget sub.count)) free.old free.new result }
{
    let mut at = put_start(free, SUBSYSTEM, SUBSYSTEM_LENGTH);
    at += put_subsystem_value(&mut free[at..], sub);
    at
}

// The fields of a subsystem's tasks.
fn put_tasks(free: &mut [u8], sub: Subsystem, m: usize) -> usize
    requires m_le_most { (m ≤ most) × (sub.count ≤ most) }
    requires count_in_bounds { length (flat_map task_field (up_to (task_at m sub) sub.count)) ≤ length free.old }
    ensures { IsPut (flat_map task_field (up_to (task_at m sub) sub.count)) free.old free.new result }
{
    let mut at = 0;
    for &task in &sub.tasks[..usize::from(sub.count)] {
        at += put_task(&mut free[at..], task, m);
    }
    at
}

// A subsystem's field, and behind it the fields of its tasks.
pub fn put_subsystem(free: &mut [u8], sub: Subsystem, m: usize) -> usize
    requires m_le_most { (m ≤ most) × (sub.count ≤ most) }
    requires sub_in_bounds { length (subsystem_bytes (subsystem_m m sub)) ≤ length free.old }
    ensures { IsPut (subsystem_bytes (subsystem_m m sub)) free.old free.new result }
{
    let mut at = put_subsystem_field(free, sub);
    at += put_tasks(&mut free[at..], sub, m);
    at
}
