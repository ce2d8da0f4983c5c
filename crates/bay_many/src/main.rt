// Judges many stored tables in one run. Standard input holds files, each behind its length in four bytes, high byte
// first. For file K a line `file K` is printed, and then what `check` prints for it. A file longer than 4,096 bytes is
// judged by its first 4,096 and the rest is passed over. Where the bytes that a frame announces do not all come, the line
// `broken frame K` is printed and the run ends.
#![tactic(auto)]

mod streams;

ghost use Rattle.std.specs.Prelude.{◌≡◌, ◌≤◌, length};
ghost use Rattle.table.specs.Grid.{HasBlocks};

use lines::Pen;
use printing::read_up_to;
use std::io;
use std::io::{Read, Write};
use streams::Streams;
use table::Table;
use table::grid::{BLOCK, Grid, LINE};

// Room for the digits of any number of a file, and the line's end.
const NUMBER_AND_END: usize = 11;

// A line: words, the number of the file, and the line's end.
fn say<W: Write>(out: &mut W, words: &[u8], k: u32) -> io::Result<()> {
    let mut rest = [0u8; NUMBER_AND_END];
    let mut pen = Pen {
        buf: &mut rest,
        at: 0,
    };
    pen.put_number(k);
    pen.put_byte(b'\n');
    let end = pen.at;
    out.write_all(words)?;
    out.write_all(&rest[..end])
}

// Passes over so many bytes of the input, by way of the space; false where they do not all come. Each read fills the space but the
// last, and one that does not ends the loop, so it goes on what is left and not over a range.
fn pass_over<R: Read>(input: &mut R, bytes: u32, space: &mut [u8]) -> io::Result<bool>
    requires { length space.old ≡ 2048 }
{
    if bytes == 0 {
        return Ok(true);
    }
    let mut left = bytes;
    while 2048 < left {
        if read_up_to(input, space)? < 2048 {
            return Ok(false);
        }
        left -= 2048;
    }
    let last = left as usize;
    let came = read_up_to(input, &mut space[..last])?;
    Ok(last <= came)
}

// The frame is broken: says so.
fn broken<W: Write>(out: &mut W, k: u32) -> io::Result<bool> {
    say(out, b"broken frame ", k)?;
    Ok(false)
}

// How many bytes of a file of so many are judged.
fn judged_part(size: u32) -> u32
    ensures { (result ≤ 4096) × (result ≤ size) }
{
    size.min(4096)
}

// Judges file k, of so many bytes, in a space of 4,096; false where they do not all come. The table goes into the grid, and the
// text is made up in `buf`.
fn judge_file<R: Read, W: Write>(
    streams: &mut Streams<R, W>,
    k: u32,
    size: u32,
    space: &mut [u8],
    grid: &mut Grid,
    buf: &mut [u8],
) -> io::Result<bool>
    requires space_value { (length space.old ≡ 4096) × (length buf.old ≡ 2048) }
    requires has_blocks { HasBlocks grid.old }
    ensures { HasBlocks grid.new }
{
    let part = judged_part(size);
    let wanted = part as usize;
    let came = read_up_to(streams, &mut space[..wanted])?;
    if came < wanted {
        return broken(streams, k);
    }
    if !pass_over(streams, size - part, buf)? {
        return broken(streams, k);
    }
    say(streams, b"file ", k)?;
    printing::print_text_in(streams, &space[..wanted], grid, buf)?;
    Ok(true)
}

// Judges the next file, number k; false where there is none, or its frame is broken.
fn judge_next<R: Read, W: Write>(
    streams: &mut Streams<R, W>,
    k: u32,
    space: &mut [u8],
    grid: &mut Grid,
    buf: &mut [u8],
) -> io::Result<bool>
    requires space_value { (length space.old ≡ 4096) × (length buf.old ≡ 2048) }
    requires has_blocks { HasBlocks grid.old }
    ensures { HasBlocks grid.new }
{
    let mut head = [0u8; 4];
    let came = read_up_to(streams, &mut head)?;
    if came == 0 {
        return Ok(false);
    }
    if came < 4 {
        return broken(streams, k);
    }
    let size = stored::number::number_at(&head, 0);
    judge_file(streams, k, size, space, grid, buf)
}

// A proved loop has to end, and nothing says that standard input does: the number of files is bounded, by one that no run
// uses up. All files share the space, the grid and the buffer, which are cleared once.
fn main(rt: HostRuntime) -> io::Result<()> {
    let mut streams = Streams::new(rt.stdin(), rt.stdout());
    let mut space = [0u8; 4096];
    let mut grid = [[[0u32; LINE]; BLOCK]; Table::MOST];
    let mut buf = [0u8; text::ROOM];
    for k in 1..u32::MAX {
        if !judge_next(&mut streams, k, &mut space, &mut grid, &mut buf)? {
            break;
        }
    }
    streams.flush()
}
