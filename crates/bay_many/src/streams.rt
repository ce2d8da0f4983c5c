// A reader and a writer in pieces: few calls to the system, however short the files are.
ghost use Rattle.std.specs.Prelude.{◌≡◌, ◌+◌, ◌≤◌, length, OnOk};

use std::io;
use std::io::{Read, Write};

// How many bytes are taken from the reader, and kept for the writer, at the most.
pub(crate) const PIECE: usize = 16384;

// What came and was not asked for yet is `came[at..end]`, and what is kept for the writer is `kept[..len]`. It is written before
// more is read, so whoever waits for an answer gets it before the next question.
#[derive(Drop)]
pub(crate) struct Streams<R, W> {
    input: R,
    output: W,
    came: [u8; PIECE],
    at: usize,
    end: usize,
    kept: [u8; PIECE],
    len: usize,
    ghost ordered: { at ≤ end },
    ghost came_within: { end ≤ 16384 },
    ghost kept_within: { len ≤ 16384 },
}

impl<R, W> Streams<R, W> {
    pub(crate) fn new(input: R, output: W) -> Streams<R, W> {
        Streams {
            input,
            output,
            came: [0; PIECE],
            at: 0,
            end: 0,
            kept: [0; PIECE],
            len: 0,
        }
    }

    // Gives up to so many bytes of what came, at the start of `buf`.
    fn give(&mut self, buf: &mut [u8]) -> usize
        ensures { result ≤ length buf.old }
    {
        let n = (self.end - self.at).min(buf.len());
        let from = self.at;
        buf[..n].copy_from_slice(&self.came[from..from + n]);
        self.at = from + n;
        n
    }

    // Keeps the bytes, for which there is room.
    fn keep(&mut self, bytes: &[u8])
        requires { self.old.len + length bytes.now ≤ 16384 }
    {
        let from = self.len;
        let to = from + bytes.len();
        self.kept[from..to].copy_from_slice(bytes);
        self.len = to;
    }
}

impl<R, W: Write> Streams<R, W> {
    // Writes what is kept. None of it is written again where that fails. It stands apart, so that the copies are inlined.
    #[cold]
    #[inline(never)]
    fn write_kept(&mut self) -> io::Result<()>
        ensures { self.new.len ≡ 0 }
    {
        let len = self.len;
        self.len = 0;
        self.output.write_all(&self.kept[..len])
    }

    // Sees to room for so many bytes.
    fn make_room(&mut self, bytes: usize) -> io::Result<()>
        requires { bytes ≤ 16384 }
        ensures { OnOk result (self.new.len + bytes ≤ 16384) }
    {
        if PIECE - self.len < bytes {
            self.write_kept()?;
        }
        Ok(())
    }
}

impl<R: Read, W: Write> Streams<R, W> {
    // Reads the next piece, where all that came has been asked for.
    #[cold]
    #[inline(never)]
    fn refill(&mut self) -> io::Result<()> {
        self.write_kept()?;
        self.at = 0;
        self.end = 0;
        let n = self.input.read(&mut self.came)?;
        self.end = n;
        Ok(())
    }
}

impl<R: Read, W: Write> Read for Streams<R, W> {
    fn read(&mut self, buf: &mut [u8]) -> io::Result<usize> {
        if self.at == self.end {
            self.refill()?;
        }
        Ok(self.give(buf))
    }
}

impl<R: Read, W: Write> Write for Streams<R, W> {
    fn write(&mut self, buf: &[u8]) -> io::Result<usize> {
        if self.len == PIECE {
            self.write_kept()?;
        }
        let n = (PIECE - self.len).min(buf.len());
        self.keep(&buf[..n]);
        Ok(n)
    }

    // As by `write`, in one step where there is room.
    fn write_all(&mut self, buf: &[u8]) -> io::Result<()> {
        if PIECE < buf.len() {
            self.write_kept()?;
            return self.output.write_all(buf);
        }
        self.make_room(buf.len())?;
        self.keep(buf);
        Ok(())
    }

    fn flush(&mut self) -> io::Result<()> {
        self.write_kept()?;
        self.output.flush()
    }
}
