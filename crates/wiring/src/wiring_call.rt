// The wiring call.
ghost use Rattle.std.specs.Prelude.{◌≤◌, length};
ghost use Rattle.frames.specs.Bytes.{byte};
ghost use Rattle.frames.specs.Refusals.{then};
ghost use Rattle.files.specs.Rows.{domain_in};
ghost use Rattle.wiring.specs.phys.PhyCauses.{wired_domain};
ghost use Rattle.wiring.specs.index.AddressIndex.{IndexRoom};
ghost use Rattle.wiring.specs.phys.Checks.{FileRoom, RoomFor};
ghost use Rattle.wiring.specs.graph.Neighbours.{words_for, wiring_call, WiringDone};

use crate::graph::neighbours;
use crate::index::addresses;
use crate::index::indexed_rows::IndexedRows;
use crate::phys::causes;
use files::Setting;
use frames::Refusal;

// Causes 7 to 10, then 16, then the neighbour words. There is room for who has which address.
fn wire_rows(
    rows: &[u64],
    first: &mut [u16],
    low: &mut [u8],
    words: &mut [u64],
) -> Result<u64, Refusal>
    requires { IndexRoom (domain_in rows.now) first.old low.old }
    ensures { WiringDone (then (wired_domain (domain_in rows.now)) (words_for (length words.old))) result words.old words.new }
{
    addresses::put_index(rows, first, low);
    let d = IndexedRows {
        rows: rows,
        first: &*first,
        low: &*low,
    };
    causes::check_wiring(&d)?;
    if words.len() < files::expander_count(rows) as usize {
        return Err(frames::refused(16));
    }
    Ok(neighbours::put_neighbours(&d, words))
}

// The wiring call, with room for the rows of the file's domain and for who has which address.
fn wire_in(
    setting: Setting,
    file: &[u8],
    rows: &mut [u64],
    first: &mut [u16],
    low: &mut [u8],
    words: &mut [u64],
) -> Result<u64, Refusal>
    requires { FileRoom setting file.now rows.old first.old low.old }
    ensures { WiringDone (wiring_call setting file.now (length words.old)) result words.old words.new }
{
    let n = files::read_domain(setting, file, rows)?;
    let e = files::ROW_WORDS * (n as usize);
    wire_rows(&rows[..e], first, low, words)
}

// The wiring call, with room of this size: words for rows, and entries for slots and phys.
fn wire_with<const ROWS: usize, const SLOTS: usize, const PHYS: usize>(
    setting: Setting,
    file: &[u8],
    words: &mut [u64],
) -> Result<u64, Refusal>
    requires { RoomFor (byte file.now 1) ROWS SLOTS PHYS }
    ensures { WiringDone (wiring_call setting file.now (length words.old)) result words.old words.new }
{
    let mut rows = [0u64; ROWS];
    let mut first = [0u16; SLOTS];
    let mut low = [0u8; PHYS];
    wire_in(
        setting,
        file,
        &mut rows[..],
        &mut first[..],
        &mut low[..],
        words,
    )
}

// The wiring call: causes 22 and 1 to 10, then 16. It writes one word for each expander, and answers how
// many bits are set in all. The words after stay, and all of them where it is refused. Few expanders, whose
// number stands in the second byte, need little room. More than 64 are refused by the setting or the first two bytes;
// that it calls itself there gives each room a stack frame of its own (docs/DECISIONS.md, 17).
pub fn wire(setting: Setting, file: &[u8], words: &mut [u64]) -> Result<u64, Refusal>
    ensures { WiringDone (wiring_call setting file.now (length words.old)) result words.old words.new }
{
    let n = files::stated_count(file);
    if n <= 2 {
        return wire_with::<{ files::ROWS_OF_2 }, { crate::SLOTS_OF_2 }, { crate::PHYS_OF_2 }>(
            setting, file, words,
        );
    }
    if n <= 8 {
        return wire_with::<{ files::ROWS_OF_8 }, { crate::SLOTS_OF_8 }, { crate::PHYS_OF_8 }>(
            setting, file, words,
        );
    }
    if n > 64 {
        if file.len() > 2 {
            return wire(setting, &file[..2], words);
        }
    }
    wire_with::<{ files::ROWS_OF_64 }, { crate::SLOTS_OF_64 }, { crate::PHYS_OF_64 }>(
        setting, file, words,
    )
}
