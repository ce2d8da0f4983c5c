// The judgement of a file: number and place. Assumes nothing.
ghost use Rattle.std.specs.Prelude.{◌≡◌, ◌<◌, ◌^◌};
ghost use Rattle.offsets.specs.Judgement.{file_judgement, table_judgement, judgement_of};

use crate::Judgement;
use judge::{Laid, judge_grid};
use rules::Judged;
use stored::FileRefusal;
use table::Table;
use table::grid::{BLOCK, LINE};

// The judgement of a file that is refused so.
pub fn file_judgement(refusal: FileRefusal) -> Judgement
    requires { refusal.offset < 2 ^ 32 }
    ensures { result ≡ file_judgement refusal }
{
    Judgement {
        number: u32::from(refusal.number),
        first: refusal.offset as u32,
        second: 0,
    }
}

// The judgement of a table that was judged so.
pub fn table_judgement(judged: Judged) -> Judgement
    ensures { result ≡ table_judgement judged }
{
    match judged {
        Ok(()) => Judgement {
            number: 0,
            first: 0,
            second: 0,
        },
        Err(broken) => Judgement {
            number: u32::from(broken.rule),
            first: u32::from(broken.place.subsystem),
            second: u32::from(broken.place.task),
        },
    }
}

// The judgement of any file: as it is read, and where it is a table, by the rules.
pub fn judge_file(file: &[u8]) -> Judgement
    ensures { result ≡ judgement_of file.now }
{
    let mut grid = [[[0u32; LINE]; BLOCK]; Table::MOST];
    match reader::read_grid(file, &mut grid) {
        Err(misread) => file_judgement(stored::file_refusal(Err(misread))),
        Ok(head) => {
            let laid = Laid {
                grid: &grid,
                n: usize::from(head.count),
                m: usize::from(head.resources),
            };
            let mut holdings = [[0u64; Table::MOST]; Table::MOST];
            table_judgement(judge_grid(&laid, &mut holdings))
        }
    }
}
