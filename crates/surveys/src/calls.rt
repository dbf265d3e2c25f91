// What the tables of an accepted file are, without writing them: how many tables and words, and where a word belongs.
ghost use Rattle.std.specs.Prelude.{◌≡◌, ◌≤◌, length};
ghost use Rattle.wiring.specs.FrameDefinitions.{byte, then};
ghost use Rattle.files.specs.Rows.{domain_in};
ghost use Rattle.wiring.specs.phys.Checks.{FileRoom, RoomFor};
ghost use Rattle.tables.specs.JudgingCall.{judged, counts_in};
ghost use Rattle.tables.specs.lists.PreparedLists.{judged_in};
ghost use Rattle.surveys.specs.WordEntries.{word_place, survey_in};

use crate::{Entry, word_places};
use tables::Counted;
use wiring::{Refusal, Setting};

// Of an accepted file: the number of tables, the number of words, and where one of them belongs.
#[derive(Clone, Copy)]
struct Surveyed {
    counted: Counted,
    place: Result<Entry, Refusal>,
}

// Causes 7 to 12, 23 and 14 of a domain in rows as `judge_rows` has them, or its survey, with the place of word k.
fn survey_rows(
    rows: &[u64],
    first: &mut [u16],
    low: &mut [u8],
    k: u64,
    chain: u8,
) -> Result<Surveyed, Refusal>
    ensures { result ≡ then (judged_in chain (length first.old) (length low.old) (domain_in rows.now)) (survey_in k) }
{
    tables::judge_rows(rows, first, low, chain)?;
    let count = tables::table_count(rows);
    let needed = tables::needed_words(rows);
    let place = word_places::place_of_word(rows, k);
    Ok(Surveyed {
        counted: Counted {
            table_count: count as u32,
            word_count: needed as u32,
        },
        place: place,
    })
}

// The survey of a file, with room for the rows of its domain and for who has which address.
fn survey_in(
    setting: Setting,
    file: &[u8],
    k: u64,
    rows: &mut [u64],
    first: &mut [u16],
    low: &mut [u8],
) -> Result<Surveyed, Refusal>
    requires { FileRoom setting file.now rows.old first.old low.old }
    ensures { result ≡ then (judged setting file.now) (survey_in k) }
{
    let n = wiring::read_domain(setting, file, rows)?;
    let e = files::ROW_WORDS * (n as usize);
    survey_rows(&rows[..e], first, low, k, setting.chain)
}

// The survey of a file, with room of this size: words for rows, and entries for slots and phys.
fn survey_with<const ROWS: usize, const SLOTS: usize, const PHYS: usize>(
    setting: Setting,
    file: &[u8],
    k: u64,
) -> Result<Surveyed, Refusal>
    requires { RoomFor (byte file.now 1) ROWS SLOTS PHYS }
    ensures { result ≡ then (judged setting file.now) (survey_in k) }
{
    let mut rows = [0u64; ROWS];
    let mut first = [0u16; SLOTS];
    let mut low = [0u8; PHYS];
    survey_in(
        setting,
        file,
        k,
        &mut rows[..],
        &mut first[..],
        &mut low[..],
    )
}

// The survey of a file. It takes room as `judge` does.
fn survey_file(setting: Setting, file: &[u8], k: u64) -> Result<Surveyed, Refusal>
    ensures { result ≡ then (judged setting file.now) (survey_in k) }
{
    let n = wiring::stated_count(file);
    if n <= 8 {
        return survey_with::<{ files::ROWS_OF_8 }, { wiring::SLOTS_OF_8 }, { wiring::PHYS_OF_8 }>(
            setting, file, k,
        );
    }
    if n > 64 {
        if file.len() > 2 {
            return survey_file(setting, &file[..2], k);
        }
    }
    survey_with::<{ files::ROWS_OF_64 }, { wiring::SLOTS_OF_64 }, { wiring::PHYS_OF_64 }>(
        setting, file, k,
    )
}

// How many tables and words a file needs: causes 22, 1 to 12, 23 and 14, or these two numbers.
pub fn needed(setting: Setting, file: &[u8]) -> Result<Counted, Refusal>
    ensures { result ≡ then (judged setting file.now) counts_in }
{
    Ok(survey_file(setting, file, 0)?.counted)
}

// Which expander, phy and route index table word k of a file belongs to: causes 22, 1 to 12, 23 and 14, then 15 where
// there is no word k.
pub fn word_place(setting: Setting, file: &[u8], k: u64) -> Result<Entry, Refusal>
    ensures { result ≡ then (judged setting file.now) (word_place k) }
{
    survey_file(setting, file, k)?.place
}
