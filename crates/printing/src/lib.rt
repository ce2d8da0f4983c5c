// What the programs share: the text of a file into a writer, and the bytes of a reader up to what a space holds. The text itself
// is crate `text`'s, proved there.
#![tactic(auto)]

ghost use Rattle.std.specs.Prelude.{◌<◌, ◌≤◌, length, take, IfOk, OnOk};
ghost use Rattle.std.specs.Io.KnownBytes.{Appends, Consumes, IsAtEnd, Keeps};
ghost use Rattle.table.specs.Grid.{HasBlocks};
ghost use Rattle.text.specs.Text.{text_of};
ghost use Rattle.wording.specs.Room.{text_room};

use std::io;
use std::io::{Read, Write};
use table::Table;
use table::grid::{BLOCK, Grid, LINE};

// Writes what `check` prints for a file, read into a lent grid and made up in a lent buffer. One of `text::ROOM` bytes has room
// for any text; with a shorter one nothing is written.
pub fn print_text_in<W: Write>(
    out: &mut W,
    file: &[u8],
    grid: &mut Grid,
    buf: &mut [u8],
) -> io::Result<()>
    requires { HasBlocks grid.old }
    ensures has_blocks { HasBlocks grid.new }
    ensures written { text_room ≤ length buf.old
        → OnOk result (Appends (W.contents out.old) (W.contents out.new) (text_of file.now)) }
    ensures unwritten { length buf.old < text_room → Keeps (W.contents out.old) (W.contents out.new) }
{
    match text::check_text_in(file, grid, buf) {
        Some(len) => out.write_all(&buf[..len]),
        None => Ok(()),
    }
}

// The same for one file.
pub fn print_text<W: Write>(out: &mut W, file: &[u8]) -> io::Result<()>
    ensures { OnOk result (Appends (W.contents out.old) (W.contents out.new) (text_of file.now)) }
{
    let mut grid = [[[0u32; LINE]; BLOCK]; Table::MOST];
    let mut buf = [0u8; text::ROOM];
    print_text_in(out, file, &mut grid, &mut buf)
}

// Reads until the space is full or the input ends, and gives how many bytes came. They stand at the space's start. `read_exact`
// does not say how many came before the end, so the reads are made here.
pub fn read_up_to<R: Read>(input: &mut R, space: &mut [u8]) -> io::Result<usize>
    ensures within { IfOk result (λ n. n ≤ length space.old) }
    ensures bytes { IfOk result (λ n. Consumes (R.remaining input.old) (R.remaining input.new) (take n space.new)) }
    ensures end { IfOk result (λ n. n < length space.old → IsAtEnd (R.remaining input.new)) }
{
    let mut done = 0;
    while done < space.len() {
        let came = input.read(&mut space[done..])?;
        if came == 0 {
            return Ok(done);
        }
        done += came;
    }
    Ok(done)
}
