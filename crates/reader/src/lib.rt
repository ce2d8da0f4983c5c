// The reader: `read_grid` reads any bytes into a grid that it is lent, `read_table` into a table. Every function here is
// proved, and the crate assumes nothing of its own. `read_table` has no `requires`; whoever is lent a grid or a block asks for
// its shape, and `table_of` for counts that a table has room for.
#![tactic(auto)]

mod read;
mod taken;

pub use read::read_grid;
pub use taken::{read_table, table_of};

// What a file's header gives, where the file is read into a grid: its N and M.
#[derive(Clone, Copy)]
pub struct Head {
    pub count: u8,
    pub resources: u8,
}
