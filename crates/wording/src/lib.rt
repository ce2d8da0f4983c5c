// The lines that `check` prints, each put by a pen into a lent buffer behind what it holds: of a row, and of a refusal. Every
// function here is proved, and the crate assumes nothing.
#![tactic(auto)]

mod line;
mod refused;

pub use line::{put_row, response};
pub use refused::{put_refused_file, put_refused_table};
