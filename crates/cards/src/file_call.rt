// Makes a file of a card.
ghost use Rattle.std.specs.Prelude.{length};
ghost use Rattle.cards.specs.Calls.{file_call, MadeDone};

use crate::{card_rows, file_writing, reading};
use wiring::{Refusal, Setting};

// Makes a file of short frames of a card: 22, 19, then 3, 4 and 6 as in a file, then 16. It answers how many bytes
// the file has. The bytes after stay, and all of them where it is refused.
pub fn file_of_card(setting: Setting, card: &[u8], file: &mut [u8]) -> Result<usize, Refusal>
    ensures { MadeDone (file_call setting card.now (length file.old)) result file.old file.new }
{
    if !wiring::is_in_range(setting) {
        return Err(wiring::refused(22));
    }
    let n = reading::expanders_from(card);
    let mut rows = [0u64; files::ROWS_OF_64];
    let walk = card_rows::walk_card(&mut rows[..], setting, card, n);
    if !reading::is_formed(card, walk.fine, walk.at) {
        return Err(wiring::refused(19));
    }
    if !wiring::is_within(n, setting.expanders) {
        return Err(wiring::refused(3));
    }
    walk.check?;
    let e = files::ROW_WORDS * (n as usize);
    file_writing::file_of_rows(&rows[..e], file)
}
