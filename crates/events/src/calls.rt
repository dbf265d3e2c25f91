// The event call.
ghost use Rattle.std.specs.Prelude.{◌≡◌, ◌≤◌};
ghost use Rattle.frames.specs.Bytes.{byte};
ghost use Rattle.frames.specs.Refusals.{good};
ghost use Rattle.files.specs.File.{domain_read};
ghost use Rattle.files.specs.Rows.{domain_in};
ghost use Rattle.wiring.specs.index.AddressIndex.{IndexRoom};
ghost use Rattle.wiring.specs.phys.Checks.{FileRoom, RoomFor};
ghost use Rattle.tables.specs.filling.Entries.{entries, room_of};
ghost use Rattle.events.specs.Calls.{event_call, EventDone};

use crate::{Event, writing};
use tables::{Moved, Refusal, Setting};

// The event call on a file whose domain the rows hold, with room for who has which address. The file is edited last, after every
// test.
fn apply_rows(
    setting: Setting,
    file: &mut [u8],
    words: &mut [u64],
    bits: &mut [u8],
    v: Event,
    rows: &mut [u64],
    first: &mut [u16],
    low: &mut [u8],
) -> Result<Moved, Refusal>
    requires { (domain_read setting file.old ≡ good (domain_in rows.old)) × IndexRoom (domain_in rows.old) first.old low.old }
    ensures { EventDone (event_call setting file.old v (room_of (entries words.old bits.old))) v result
        file.old file.new (entries words.old bits.old) (entries words.new bits.new) }
{
    let moved = tables::replug_rows(
        rows,
        first,
        low,
        words,
        bits,
        setting.chain,
        v.expander,
        v.phy,
        v.address,
    )?;
    let at = offsets::phy_offset(file, v.expander, v.phy);
    writing::edit_frame(file, at, v.address);
    Ok(moved)
}

// The event call, with room for the rows of the file's domain and for who has which address.
fn apply_in(
    setting: Setting,
    file: &mut [u8],
    words: &mut [u64],
    bits: &mut [u8],
    v: Event,
    rows: &mut [u64],
    first: &mut [u16],
    low: &mut [u8],
) -> Result<Moved, Refusal>
    requires { FileRoom setting file.old rows.old first.old low.old }
    ensures { EventDone (event_call setting file.old v (room_of (entries words.old bits.old))) v result
        file.old file.new (entries words.old bits.old) (entries words.new bits.new) }
{
    let n = wiring::read_domain(setting, file, rows)?;
    let e = files::ROW_WORDS * (n as usize);
    apply_rows(setting, file, words, bits, v, &mut rows[..e], first, low)
}

// The event call, with room of this size: words for rows, and entries for slots and phys.
fn apply_with<const ROWS: usize, const SLOTS: usize, const PHYS: usize>(
    setting: Setting,
    file: &mut [u8],
    words: &mut [u64],
    bits: &mut [u8],
    v: Event,
) -> Result<Moved, Refusal>
    requires { RoomFor (byte file.old 1) ROWS SLOTS PHYS }
    ensures { EventDone (event_call setting file.old v (room_of (entries words.old bits.old))) v result
        file.old file.new (entries words.old bits.old) (entries words.new bits.new) }
{
    let mut rows = [0u64; ROWS];
    let mut first = [0u16; SLOTS];
    let mut low = [0u8; PHYS];
    apply_in(
        setting,
        file,
        words,
        bits,
        v,
        &mut rows[..],
        &mut first[..],
        &mut low[..],
    )
}

// The event call: 22, 1 to 12, 23 and 14 of the file as lent, then 20, 16 and 18, then the refusal of the edited file. It edits the
// file, writes the touched tables and their disable bits afresh, and answers how many tables are touched and how many words
// changed. All other words, bits and bytes stay, and all of them where it is refused. It takes room as `tables::judge` does.
pub fn apply_event(
    setting: Setting,
    file: &mut [u8],
    words: &mut [u64],
    bits: &mut [u8],
    v: Event,
) -> Result<Moved, Refusal>
    ensures { EventDone (event_call setting file.old v (room_of (entries words.old bits.old))) v result
        file.old file.new (entries words.old bits.old) (entries words.new bits.new) }
{
    let n = wiring::stated_count(file);
    if n <= 2 {
        return apply_with::<{ files::ROWS_OF_2 }, { wiring::SLOTS_OF_2 }, { wiring::PHYS_OF_2 }>(
            setting, file, words, bits, v,
        );
    }
    if n <= 8 {
        return apply_with::<{ files::ROWS_OF_8 }, { wiring::SLOTS_OF_8 }, { wiring::PHYS_OF_8 }>(
            setting, file, words, bits, v,
        );
    }
    if n > 64 {
        if file.len() > 2 {
            return apply_event(setting, &mut file[..2], words, bits, v);
        }
    }
    apply_with::<{ files::ROWS_OF_64 }, { wiring::SLOTS_OF_64 }, { wiring::PHYS_OF_64 }>(
        setting, file, words, bits, v,
    )
}
