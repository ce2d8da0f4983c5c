// The static library: the four functions of the crate bay under the names that callers in C have, with the same clauses. A slice is
// passed as a pointer and a length; bindings/c/bay.h says the rest. No function here has a `requires`, and each does nothing but
// call bay's. Every function here is proved, and the crate assumes nothing of its own.
#![tactic(auto)]

ghost use Rattle.std.specs.Prelude.{◌≡◌, length};
ghost use Rattle.text.specs.Text.{buffer_after};
ghost use Rattle.offsets.specs.Judgement.{judgement_of};
ghost use Rattle.bay.specs.Lent.{text_size, place_after, filled, figures_after, rewrite_of, rewrite_after};
ghost use Rattle.offsets.specs.Figures.{report_size};

// As `bay::bay_text`: the text of a file at the start of the buffer, and how many bytes it has, or 0 where there is no room.
#[unsafe(no_mangle)]
pub extern "C" fn bay_text(file: &[u8], buf: &mut [u8]) -> usize
    ensures value { result ≡ text_size file.now (length buf.old) }
    ensures buf_after { buf.new ≡ buffer_after file.now buf.old }
{
    bay::bay_text(file, buf)
}

// As `bay::bay_judge`: the number of a file's judgement, and its place at the start of the buffer where that has room.
#[unsafe(no_mangle)]
pub extern "C" fn bay_judge(file: &[u8], place: &mut [u8]) -> u32
    ensures value { result ≡ (judgement_of file.now).number }
    ensures place_after { place.new ≡ place_after file.now place.old }
{
    bay::bay_judge(file, place)
}

// As `bay::bay_report`: the figures of a file's report in the first 308 bytes of the buffer, and 308, or 0 where there is no room.
#[unsafe(no_mangle)]
pub extern "C" fn bay_report(file: &[u8], buf: &mut [u8]) -> usize
    ensures value { result ≡ filled report_size (length buf.old) }
    ensures buf_after { buf.new ≡ figures_after file.now buf.old }
{
    bay::bay_report(file, buf)
}

// As `bay::bay_rewrite`: the table of a file, written back to the start of the buffer, and how many bytes it has, or 0 where the
// file is refused or there is no room.
#[unsafe(no_mangle)]
pub extern "C" fn bay_rewrite(file: &[u8], buf: &mut [u8]) -> usize
    ensures value { result ≡ rewrite_of file.now (length buf.old) }
    ensures buf_after { buf.new ≡ rewrite_after file.now buf.old }
{
    bay::bay_rewrite(file, buf)
}
