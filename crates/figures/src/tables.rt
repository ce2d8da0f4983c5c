// The tables that the figures are about. Document 01 leaves some of their times open; those are chosen so that the rules admit
// the table.
ghost use Rattle.std.specs.Prelude.{◌≡◌};

use table::{Subsystem, Table, Task};

// A task with its accesses to resources 1 and 2.
fn task(separation: u32, work: u32, deadline: u32, c1: u32, c2: u32) -> Task {
    let mut task = Task::zeros();
    task.separation = separation;
    task.work = work;
    task.deadline = deadline;
    task.access[0] = c1;
    task.access[1] = c2;
    task
}

// A subsystem with one task.
fn alone(period: u32, budget: u32, task: Task) -> Subsystem {
    let mut sub = Subsystem::zeros();
    sub.period = period;
    sub.budget = budget;
    sub.count = 1;
    sub.tasks[0] = task;
    sub
}

// A table with one subsystem.
pub(crate) fn of_one(resources: u8, sub: Subsystem) -> Table {
    let mut t = Table::zeros();
    t.count = 1;
    t.resources = resources;
    t.subsystems[0] = sub;
    t
}

// A table with two subsystems.
fn of_two(resources: u8, first: Subsystem, second: Subsystem) -> Table {
    let mut t = Table::zeros();
    t.count = 2;
    t.resources = resources;
    t.subsystems[0] = first;
    t.subsystems[1] = second;
    t
}

// Table A, with this D of subsystem 1 and this c2 of subsystem 3.
pub(crate) fn table_a(deadline: u32, c2: u32) -> Table {
    let mut t = Table::zeros();
    t.count = 3;
    t.resources = 2;
    t.subsystems[0] = alone(50, 10, task(134, 20, deadline, 6, 0));
    t.subsystems[1] = alone(50, 2, task(96, 2, 96, 0, 2));
    t.subsystems[2] = alone(70, 30, task(100, 30, 100, 10, c2));
    t
}

// Table C.
pub(crate) fn table_c() -> Table {
    of_two(
        1,
        alone(50, 14, task(100, 100, 100, 6, 0)),
        alone(70, 30, task(100, 100, 100, 11, 0)),
    )
}

// Tasks C 3 and C 8 over one resource, with these accesses.
pub(crate) fn two_tasks(c1: u32, c2: u32) -> Subsystem
    ensures { result.count ≡ 2 }
{
    let mut sub = Subsystem::zeros();
    sub.period = 100;
    sub.budget = 10;
    sub.count = 2;
    sub.tasks[0] = task(100, 3, 100, c1, 0);
    sub.tasks[1] = task(100, 8, 100, c2, 0);
    sub
}

// P 10, Q 6 and one task with this access.
pub(crate) fn held_for(c: u32) -> Table {
    of_one(1, alone(10, 6, task(100, 8, 100, c, 0)))
}

// P 10, Q 10 above P 10, Q 1, no resources.
pub(crate) fn no_room_below() -> Table {
    of_two(
        0,
        alone(10, 10, task(100, 10, 100, 0, 0)),
        alone(10, 1, task(100, 1, 100, 0, 0)),
    )
}
