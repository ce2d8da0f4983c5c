// The stored table: numbers as bytes, the judge of a field and the decoders. Crate `reader` reads, crate `writer` writes; what
// a read gives and what a write leaves is defined here, with the theorems on both. Every function here is proved, and the
// crate assumes nothing of its own. No function of this file has a `requires`; those of `number`, `fields` and `decode` ask for
// the bytes that they are to read or to write, and whoever is lent a line asks for its shape.
#![tactic(auto)]

ghost use Rattle.std.specs.Prelude.{◌≡◌};
ghost use Rattle.stored.specs.Judge.{fault_number};
ghost use Rattle.stored.specs.Read.{file_refusal};

use rules::Place;
use table::Table;

pub mod decode;
pub mod fields;
mod held;
pub mod number;

pub use held::table_is_held;

// What can be wrong with the rest of a file, from the current field on. specs/Judge.antt gives document 01's number of
// each.
#[derive(Clone, Copy)]
pub enum Fault {
    // Too few bytes are left, for tag and length or for the value.
    Short,
    // The tag is not the one due.
    OtherTag,
    // The length is not the one due.
    OtherLength,
    // The version or a count is out of range.
    OutOfRange,
    // Bytes are left after the last field.
    LeftOver,
}

// The judge's answer on the field at the start of the rest of a file: the field that is due, with a value of so many bytes, or
// what is wrong.
pub type FieldAnswer = Result<usize, Fault>;

// Why a file is refused: what is wrong with it, and at which offset.
#[derive(Clone, Copy)]
pub struct Misread {
    pub fault: Fault,
    pub offset: usize,
}

// A read's answer: the file is a table, or why it is none.
pub type ReadAnswer = Result<(), Misread>;

// What a read gives: its answer, and the table, which is all zeros where the file is refused. Document 01 asks for the table then, too,
// so it stands beside the answer and not in it.
#[derive(Clone, Copy)]
pub struct Reading {
    pub answer: ReadAnswer,
    pub table: Table,
}

// Document 01's number and place of a read's answer.
#[derive(Clone, Copy)]
pub struct FileRefusal {
    pub number: u8,
    pub offset: usize,
}

// Why a file is not written. specs/Write.antt gives the number and place of each case.
#[derive(Clone, Copy)]
pub enum Unwritten {
    // A count is out of range, at this place: rule 1.
    Uncounted(Place),
    // The buffer is shorter than the file.
    NoRoom,
}

// A write's answer: the file stands at the buffer's start, with so many bytes, or why it does not.
pub type WriteAnswer = Result<usize, Unwritten>;

// Document 01's number of each fault.
impl From<Fault> for u8 {
    ghost from_gives = { λ fault n. n ≡ fault_number fault };

    fn from(fault: Fault) -> u8 {
        match fault {
            Fault::Short => 11,
            Fault::OtherTag => 12,
            Fault::OtherLength => 13,
            Fault::OutOfRange => 14,
            Fault::LeftOver => 15,
        }
    }
}

// The number and the offset of a read's answer, for a program to print; 0 and 0 where nothing is refused.
pub fn file_refusal(answer: ReadAnswer) -> FileRefusal
    ensures { result ≡ file_refusal answer }
{
    let Err(Misread { fault, offset }) = answer else {
        return FileRefusal {
            number: 0,
            offset: 0,
        };
    };
    FileRefusal {
        number: u8::from(fault),
        offset,
    }
}
