// The table's kind: what a set of parts is written down as, its limits, and the table of zeros. What a table means is
// in specs/Meaning.antt. Every function here is proved, and the crate assumes nothing of its own. No public function
// of this file has a `requires`.
#![tactic(auto)]

ghost use Rattle.std.specs.Prelude.{◌≡◌};
ghost use Rattle.table.specs.Limits.{most, largest, horizon};
ghost use Rattle.table.specs.Zeros.{zero_task, zero_subsystem, zero_table};

pub mod grid;
pub mod slots;

// A task: minimum separation T, work C, deadline D, and for each resource its longest access c, 0 meaning no access.
#[derive(Clone, Copy, Default)]
pub struct Task {
    pub separation: u32,
    pub work: u32,
    pub deadline: u32,
    pub access: [u32; Table::MOST],
}

// A subsystem: period P, budget Q, and its tasks, of which the first `count` are used. A lower index is a higher
// priority.
#[derive(Clone, Copy, Default)]
pub struct Subsystem {
    pub period: u32,
    pub budget: u32,
    pub count: u8,
    pub tasks: [Task; Table::MOST],
}

// A table: N subsystems in use, M resources in use, and the subsystems. Slots past the counts may hold anything.
#[derive(Clone, Copy, Default)]
pub struct Table {
    pub count: u8,
    pub resources: u8,
    pub subsystems: [Subsystem; Table::MOST],
}

impl Table {
    // The most subsystems, the most resources, and the most tasks in a subsystem.
    pub const MOST: usize = 8;
    // The largest time and the longest access, in ticks.
    pub const LARGEST: u32 = 1_000_000;
    // The last tick at which an active period may end.
    pub const HORIZON: u32 = 16_000_000;

    // The table with zero in every slot and every count.
    pub fn zeros() -> Table
        ensures { result ≡ zero_table }
    {
        Table::default()
    }
}

impl Subsystem {
    // The subsystem with zero in every slot.
    pub fn zeros() -> Subsystem
        ensures { result ≡ zero_subsystem }
    {
        Subsystem::default()
    }
}

impl Task {
    // The task with zero in every slot.
    pub fn zeros() -> Task
        ensures { result ≡ zero_task }
    {
        Task::default()
    }
}

// The three limits as the specifications name them: these contracts tie the specifications' numbers to the constants.
pub fn most_slots() -> usize
    ensures { result ≡ most }
{
    Table::MOST
}

pub fn largest_time() -> u32
    ensures { result ≡ largest }
{
    Table::LARGEST
}

pub fn last_tick() -> u32
    ensures { result ≡ horizon }
{
    Table::HORIZON
}
