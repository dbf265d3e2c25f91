// The judging call and the table call.
ghost use Rattle.tables.specs.filling.Entries.{entries, room_of};
ghost use Rattle.std.specs.Prelude.{◌≡◌, length};
ghost use Rattle.wiring.specs.FrameDefinitions.{byte, then};
ghost use Rattle.files.specs.Rows.{domain_in};
ghost use Rattle.wiring.specs.phys.Checks.{check_answer, FileRoom, RoomFor};
ghost use Rattle.wiring.specs.index.AddressIndex.{IndexLeft};
ghost use Rattle.tables.specs.JudgingCall.{judged, expanders_in, tables_for, table_call, TablesDone};
ghost use Rattle.tables.specs.lists.PreparedLists.{judged_in, OwnDone};

use crate::Counted;
use crate::filling::all_tables;
use crate::lists::overlong;
use wiring::{IndexedRows, Refusal, Setting};

// Causes 7 to 12, 23 and 14 in order, 14 by own lists: on a domain that was read from a file, `judged_domain`. A chain
// may have `chain` expanders. `first` and `low` have room for who has which address, and hold it whatever it
// answers; 16 where there is too little room.
pub fn judge_rows(rows: &[u64], first: &mut [u16], low: &mut [u8], chain: u8) -> Result<(), Refusal>
    ensures result_value { check_answer (domain_in rows.now) result ≡ judged_in chain (length first.old) (length low.old) (domain_in rows.now) }
    ensures index_left { IndexLeft (domain_in rows.now) first.old low.old first.new low.new }
{
    wiring::check_domain(rows, first, low, chain)?;
    let d = IndexedRows {
        rows: rows,
        first: &*first,
        low: &*low,
    };
    overlong::first_overlong(&d)
}

// The judging call, with room for the rows of the file's domain and for who has which address.
fn judge_in(
    setting: Setting,
    file: &[u8],
    rows: &mut [u64],
    first: &mut [u16],
    low: &mut [u8],
) -> Result<u8, Refusal>
    requires { FileRoom setting file.now rows.old first.old low.old }
    ensures { result ≡ then (judged setting file.now) expanders_in }
{
    let n = wiring::read_domain(setting, file, rows)?;
    let e = files::ROW_WORDS * (n as usize);
    judge_rows(&rows[..e], first, low, setting.chain)?;
    Ok(n)
}

// The judging call, with room of this size: words for rows, and entries for slots and phys.
fn judge_with<const ROWS: usize, const SLOTS: usize, const PHYS: usize>(
    setting: Setting,
    file: &[u8],
) -> Result<u8, Refusal>
    requires { RoomFor (byte file.now 1) ROWS SLOTS PHYS }
    ensures { result ≡ then (judged setting file.now) expanders_in }
{
    let mut rows = [0u64; ROWS];
    let mut first = [0u16; SLOTS];
    let mut low = [0u8; PHYS];
    judge_in(setting, file, &mut rows[..], &mut first[..], &mut low[..])
}

// The judging call: causes 22, 1 to 12, 23 and 14, or the number of expanders. Few expanders need little room. More
// than 64 are refused by the setting or the first two bytes; that it calls itself there gives each room a stack frame
// of its own (docs/DECISIONS.md, 17).
pub fn judge(setting: Setting, file: &[u8]) -> Result<u8, Refusal>
    ensures { result ≡ then (judged setting file.now) expanders_in }
{
    let n = wiring::stated_count(file);
    if n <= 2 {
        return judge_with::<{ files::ROWS_OF_2 }, { wiring::SLOTS_OF_2 }, { wiring::PHYS_OF_2 }>(
            setting, file,
        );
    }
    if n <= 8 {
        return judge_with::<{ files::ROWS_OF_8 }, { wiring::SLOTS_OF_8 }, { wiring::PHYS_OF_8 }>(
            setting, file,
        );
    }
    if n > 64 {
        if file.len() > 2 {
            return judge(setting, &file[..2]);
        }
    }
    judge_with::<{ files::ROWS_OF_64 }, { wiring::SLOTS_OF_64 }, { wiring::PHYS_OF_64 }>(
        setting, file,
    )
}

// Causes 7 to 12, 23 and 14 as `judge_rows` has them, then 16 and 18, then all tables by own lists and their disable bits:
// on a domain that was read from a file, what the table call leaves. Words and bytes after stay, and all of them where it
// is refused. `first` and `low` are left as `judge_rows` leaves them.
pub fn give_rows(
    rows: &[u64],
    first: &mut [u16],
    low: &mut [u8],
    words: &mut [u64],
    bits: &mut [u8],
    chain: u8,
) -> Result<Counted, Refusal>
    ensures own_done { OwnDone (then (judged_in chain (length first.old) (length low.old) (domain_in rows.now)) (tables_for (room_of (entries words.old bits.old))))
        result (entries words.old bits.old) (entries words.new bits.new) }
    ensures index_left { IndexLeft (domain_in rows.now) first.old low.old first.new low.new }
{
    judge_rows(rows, first, low, chain)?;
    let needed = all_tables::needed_words(rows);
    if words.len() < needed {
        return Err(wiring::refused(16));
    }
    if bits.len() < wiring::bytes_for(needed) {
        return Err(wiring::refused(18));
    }
    let count = all_tables::table_count(rows);
    let d = IndexedRows {
        rows: rows,
        first: &*first,
        low: &*low,
    };
    all_tables::put_all(&d, words);
    wiring::mark_zeros(&words[..needed], bits);
    Ok(Counted {
        table_count: count as u32,
        word_count: needed as u32,
    })
}

// The table call, with room for the rows of the file's domain and for who has which address.
fn give_in(
    setting: Setting,
    file: &[u8],
    rows: &mut [u64],
    first: &mut [u16],
    low: &mut [u8],
    words: &mut [u64],
    bits: &mut [u8],
) -> Result<Counted, Refusal>
    requires { FileRoom setting file.now rows.old first.old low.old }
    ensures { TablesDone (table_call setting file.now (room_of (entries words.old bits.old)))
        result (entries words.old bits.old) (entries words.new bits.new) }
{
    let n = wiring::read_domain(setting, file, rows)?;
    let e = files::ROW_WORDS * (n as usize);
    give_rows(&rows[..e], first, low, words, bits, setting.chain)
}

// The table call, with room of this size: words for rows, and entries for slots and phys.
fn give_with<const ROWS: usize, const SLOTS: usize, const PHYS: usize>(
    setting: Setting,
    file: &[u8],
    words: &mut [u64],
    bits: &mut [u8],
) -> Result<Counted, Refusal>
    requires { RoomFor (byte file.now 1) ROWS SLOTS PHYS }
    ensures { TablesDone (table_call setting file.now (room_of (entries words.old bits.old)))
        result (entries words.old bits.old) (entries words.new bits.new) }
{
    let mut rows = [0u64; ROWS];
    let mut first = [0u16; SLOTS];
    let mut low = [0u8; PHYS];
    give_in(
        setting,
        file,
        &mut rows[..],
        &mut first[..],
        &mut low[..],
        words,
        bits,
    )
}

// The table call: causes 22, 1 to 12, 23 and 14, then 16 and 18. It writes all tables, by expander and then phy, and a
// disable bit for each word, set exactly where the word is zero; it clears the padding bits of the last byte, and answers
// how many tables and words there are. Words and bytes after stay, and all of them where it is refused. It takes room as
// `judge` does.
pub fn give_tables(
    setting: Setting,
    file: &[u8],
    words: &mut [u64],
    bits: &mut [u8],
) -> Result<Counted, Refusal>
    ensures { TablesDone (table_call setting file.now (room_of (entries words.old bits.old)))
        result (entries words.old bits.old) (entries words.new bits.new) }
{
    let n = wiring::stated_count(file);
    if n <= 2 {
        return give_with::<{ files::ROWS_OF_2 }, { wiring::SLOTS_OF_2 }, { wiring::PHYS_OF_2 }>(
            setting, file, words, bits,
        );
    }
    if n <= 8 {
        return give_with::<{ files::ROWS_OF_8 }, { wiring::SLOTS_OF_8 }, { wiring::PHYS_OF_8 }>(
            setting, file, words, bits,
        );
    }
    if n > 64 {
        if file.len() > 2 {
            return give_tables(setting, &file[..2], words, bits);
        }
    }
    give_with::<{ files::ROWS_OF_64 }, { wiring::SLOTS_OF_64 }, { wiring::PHYS_OF_64 }>(
        setting, file, words, bits,
    )
}
