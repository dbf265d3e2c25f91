// Makes the file of an exercise.
ghost use Rattle.std.specs.Prelude.{length};
ghost use Rattle.cards.specs.Calls.{MadeDone};
ghost use Rattle.exercises.specs.Call.{make_call};

use crate::{rows, words};
use wiring::Refusal;

// Makes a file of two expanders with addresses a and b whose one table is the words: 24 where there is no such rig, then
// 16. It answers how many bytes the file has. The bytes after stay, and all of them where it is refused.
pub fn make(a: u64, b: u64, list: &[u64], file: &mut [u8]) -> Result<usize, Refusal>
    ensures { MadeDone (make_call a b list.now (length file.old)) result file.old file.new }
{
    if words::is_no_rig(a, b, list) {
        return Err(wiring::refused(24));
    }
    let t = words::trimmed_count(list);
    let mut filled = [0u64; files::ROWS_OF_2];
    rows::put_rig(&mut filled[..], a, b, list.len() as u16, &list[..t]);
    cards::file_of_rows(&filled[..], file)
}
