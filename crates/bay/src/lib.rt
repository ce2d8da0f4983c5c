// The calculator for callers in other languages: four functions on numbers and byte slices. Each takes any bytes and any
// buffer: none has a `requires`. The crate bay_c exports them to C under the same names, and bindings/c/bay.h says the rest.
// Every function here is proved, and the crate assumes nothing of its own.
#![tactic(auto)]

ghost use Rattle.std.specs.Prelude.{◌≡◌, length};
ghost use Rattle.text.specs.Text.{buffer_after};
ghost use Rattle.offsets.specs.Judgement.{judgement_of};
ghost use Rattle.bay.specs.Lent.{text_size, place_after, filled, figures_after, rewrite_of, rewrite_after};
ghost use Rattle.offsets.specs.Figures.{report_size};

use offsets::figures::{put_file, put_place};
use offsets::judging::judge_file;
use offsets::{PLACE_SIZE, REPORT_SIZE};

// The text of a file goes to the start of the buffer, and the rest of the buffer stays. The result is the number of bytes of
// the text, or 0 where the buffer is shorter than 2,048 bytes, which is then as it was.
pub fn bay_text(file: &[u8], buf: &mut [u8]) -> usize
    ensures value { result ≡ text_size file.now (length buf.old) }
    ensures buf_after { buf.new ≡ buffer_after file.now buf.old }
{
    text::check_text(file, buf).unwrap_or(0)
}

// The number of a file's judgement: 0 where its table is admitted. The two numbers of the place go to the first eight bytes of
// the buffer; a shorter buffer is as it was, and the result is the number all the same.
pub fn bay_judge(file: &[u8], place: &mut [u8]) -> u32
    ensures value { result ≡ (judgement_of file.now).number }
    ensures place_after { place.new ≡ place_after file.now place.old }
{
    let j = judge_file(file);
    if place.len() < PLACE_SIZE {
        return j.number;
    }
    put_place(place, j);
    j.number
}

// The figures of a file's report go to the first 308 bytes of the buffer, and the rest of the buffer stays. The result is 308,
// or 0 where the buffer is shorter, which is then as it was.
pub fn bay_report(file: &[u8], buf: &mut [u8]) -> usize
    ensures value { result ≡ filled report_size (length buf.old) }
    ensures buf_after { buf.new ≡ figures_after file.now buf.old }
{
    if buf.len() < REPORT_SIZE {
        return 0;
    }
    put_file(buf, file)
}

// A file is read, and its table written back to the start of the buffer; the rest of the buffer stays. The result is the
// number of bytes written, or 0 where the file is refused or the buffer is shorter than it; the buffer is then as it was.
pub fn bay_rewrite(file: &[u8], buf: &mut [u8]) -> usize
    ensures value { result ≡ rewrite_of file.now (length buf.old) }
    ensures buf_after { buf.new ≡ rewrite_after file.now buf.old }
{
    let reading = reader::read_table(file);
    let Ok(()) = reading.answer else {
        return 0;
    };
    writer::write_table(reading.table, buf).unwrap_or(0)
}
