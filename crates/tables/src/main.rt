// Prints, for each stored table that an argument names, a line with the name and then what `check` prints for it. The
// stored output comes from the peer's literal engine (tests/peer/make_tables), never from this program.
#![tactic(auto)]

use std::env::FillError;
use std::io::Write;
use std::rt::Env;
use std::{fs, io};

// Room for any path that the system takes.
const PATH: usize = 4096;

// What the system says of a name that is longer than it takes: ENAMETOOLONG.
const TOO_LONG: i32 = 36;

// A line on standard error: what failed, and why.
fn complain(rt: HostRuntime, what: &[u8], error: io::Error) -> io::Result<()> {
    let mut err = rt.stderr();
    err.write_all(what)?;
    writeln!(err, ": {error}")
}

// The file of a path, whose bytes have to be text.
fn open(rt: HostRuntime, path: &[u8]) -> io::Result<fs::File> {
    match std::str::from_utf8(path) {
        Ok(path) => fs::File::open(&rt, path),
        Err(_) => Err(io::Error::from(io::ErrorKind::InvalidFilename)),
    }
}

// One stored table.
fn judge_named(rt: HostRuntime, path: &[u8]) -> io::Result<()> {
    let mut out = rt.stdout();
    out.write_all(path)?;
    out.write_all(b"\n")?;
    match open(rt, path) {
        Ok(mut named) => {
            let mut file = [0u8; 4096];
            let n = printing::read_up_to(&mut named, &mut file)?;
            printing::print_text(&mut out, &file[..n])
        }
        Err(error) => complain(rt, path, error),
    }
}

// The table that argument i names; false where there is no such argument.
fn judge_argument(rt: HostRuntime, i: usize) -> io::Result<bool> {
    let mut path = [0u8; PATH];
    match rt.arg(i, &mut path) {
        Ok(length) => judge_named(rt, &path[..length])?,
        Err(FillError::TooLong) => complain(
            rt,
            b"argument",
            io::Error::from_raw_os_error(TOO_LONG),
        )?,
        Err(FillError::NotPresent) => return Ok(false),
    }
    Ok(true)
}

fn main(rt: HostRuntime) -> io::Result<()> {
    for i in 1..usize::MAX {
        if !judge_argument(rt, i)? {
            break;
        }
    }
    Ok(())
}
