// Makes the form of a file's domain.
ghost use Rattle.std.specs.Prelude.{◌≤◌, length};
ghost use Rattle.frames.specs.Bytes.{byte};
ghost use Rattle.frames.specs.Refusals.{then};
ghost use Rattle.files.specs.Rows.{domain_in};
ghost use Rattle.wiring.specs.phys.Checks.{FileRoom, RoomFor};
ghost use Rattle.tables.specs.lists.PreparedLists.{judged_in};
ghost use Rattle.forms.specs.FormCalls.{form_for, form_call};
ghost use Rattle.forms.specs.Calls.{FormDone};

use crate::{FormCounts, writing};
use wiring::{Refusal, Setting};

// Causes 7 to 12, 23 and 14 of the domain in rows, then 16, then its form.
fn make_rows(
    rows: &[u64],
    first: &mut [u16],
    low: &mut [u8],
    words: &mut [u64],
    chain: u8,
) -> Result<FormCounts, Refusal>
    ensures { FormDone (then (judged_in chain (length first.old) (length low.old) (domain_in rows.now)) (form_for (length words.old)))
        result words.old words.new }
{
    tables::judge_rows(rows, first, low, chain)?;
    let size = writing::form_size(rows);
    if words.len() < size {
        return Err(wiring::refused(16));
    }
    writing::put_form(rows, first, words);
    Ok(FormCounts {
        expander_count: wiring::expander_count(rows),
        word_count: size as u32,
    })
}

// Makes a form, with room for the rows of the file's domain and for who has which address.
fn make_in(
    setting: Setting,
    file: &[u8],
    rows: &mut [u64],
    first: &mut [u16],
    low: &mut [u8],
    words: &mut [u64],
) -> Result<FormCounts, Refusal>
    requires { FileRoom setting file.now rows.old first.old low.old }
    ensures { FormDone (form_call setting file.now (length words.old)) result words.old words.new }
{
    let n = wiring::read_domain(setting, file, rows)?;
    let e = files::ROW_WORDS * (n as usize);
    make_rows(&rows[..e], first, low, words, setting.chain)
}

// Makes a form, with room of this size: words for rows, and entries for slots and phys.
fn make_with<const ROWS: usize, const SLOTS: usize, const PHYS: usize>(
    setting: Setting,
    file: &[u8],
    words: &mut [u64],
) -> Result<FormCounts, Refusal>
    requires { RoomFor (byte file.now 1) ROWS SLOTS PHYS }
    ensures { FormDone (form_call setting file.now (length words.old)) result words.old words.new }
{
    let mut rows = [0u64; ROWS];
    let mut first = [0u16; SLOTS];
    let mut low = [0u8; PHYS];
    make_in(
        setting,
        file,
        &mut rows[..],
        &mut first[..],
        &mut low[..],
        words,
    )
}

// Makes the form of a file's domain: causes 22, 1 to 12, 23 and 14, then 16. It answers how many expanders and words there are. The words
// after stay, and all of them where it is refused. It takes room as `judge` does.
pub fn make_form(setting: Setting, file: &[u8], words: &mut [u64]) -> Result<FormCounts, Refusal>
    ensures { FormDone (form_call setting file.now (length words.old)) result words.old words.new }
{
    let n = wiring::stated_count(file);
    if n <= 2 {
        return make_with::<{ files::ROWS_OF_2 }, { wiring::SLOTS_OF_2 }, { wiring::PHYS_OF_2 }>(
            setting, file, words,
        );
    }
    if n <= 8 {
        return make_with::<{ files::ROWS_OF_8 }, { wiring::SLOTS_OF_8 }, { wiring::PHYS_OF_8 }>(
            setting, file, words,
        );
    }
    if n > 64 {
        if file.len() > 2 {
            return make_form(setting, &file[..2], words);
        }
    }
    make_with::<{ files::ROWS_OF_64 }, { wiring::SLOTS_OF_64 }, { wiring::PHYS_OF_64 }>(
        setting, file, words,
    )
}
