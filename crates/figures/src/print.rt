// Figures as lines on standard output: a name, then the value or the values.
use row::{Outcome, Row};
use rules::Judged;
use std::io;

// A line with one number.
pub(crate) fn figure(out: &impl Print, name: &str, n: u64) -> io::Result<()> {
    println!(out; "{name}{n}")
}

// A line with how a row ends.
pub(crate) fn outcome(out: &impl Print, name: &str, row: Row) -> io::Result<()> {
    match row.outcome {
        Outcome::Fits(r) => println!(out; "{name}R {r} fits"),
        Outcome::Late(r) => println!(out; "{name}R {r} late"),
        Outcome::None => println!(out; "{name}none"),
    }
}

// A line with a judgement.
pub(crate) fn judgement(out: &impl Print, name: &str, judged: Judged) -> io::Result<()> {
    let Err(broken) = judged else {
        return println!(out; "{name}admitted");
    };
    println!(out;
        "{name}refused {} at {} {}",
        u32::from(broken.rule),
        broken.place.subsystem,
        broken.place.task
    )
}
