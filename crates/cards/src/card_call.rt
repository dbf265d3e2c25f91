// Makes a card of a file.
ghost use Rattle.std.specs.Prelude.{length};
ghost use Rattle.cards.specs.Calls.{card_call, MadeDone};

use crate::card_writing;
use wiring::{Refusal, Setting};

// Makes a card of a file: causes 22 and 1 to 6, then 16. It answers how many bytes the card has. The bytes after
// stay, and all of them where it is refused.
pub fn card_of_file(setting: Setting, file: &[u8], card: &mut [u8]) -> Result<usize, Refusal>
    ensures { MadeDone (card_call setting file.now (length card.old)) result card.old card.new }
{
    let mut rows = [0u64; files::ROWS_OF_64];
    let n = wiring::read_domain(setting, file, &mut rows[..])?;
    let e = files::ROW_WORDS * (n as usize);
    card_writing::card_of_rows(&rows[..e], card)
}
