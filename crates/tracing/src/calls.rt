// The trace call.
ghost use Rattle.std.specs.Prelude.{length};
ghost use Rattle.wiring.specs.phys.Checks.{RoomFor};
ghost use Rattle.tracing.specs.Trace.{request, trace_call, TraceDone};
ghost use Rattle.tracing.specs.Answers.{request_in};
ghost use Rattle.tables.specs.WiringDefinitions.{byte, domain_in, FileRoom, IndexLeft};
ghost use Rattle.tables.specs.filling.Entries.{entries};

use crate::{End, requests};
use tables::{ExpanderNumber, IndexedRows, PhyId, Refusal, Setting};

// Causes 7 to 12, 23, 14 and 15 to 18 of a request over rows, then the walk. A chain may have `chain` expanders. `first` and `low` have room for who has which
// address, and are left as `judge_rows` leaves them; 16 where there is too little.
pub fn request_rows(
    rows: &[u64],
    first: &mut [u16],
    low: &mut [u8],
    words: &[u64],
    bits: &[u8],
    start: ExpanderNumber,
    arrival: PhyId,
    s: u64,
    passed: &mut [u8],
    chain: u8,
) -> Result<End, Refusal>
    ensures trace_done { TraceDone
        (request_in chain (length first.old) (length low.old) (domain_in rows.now) (entries words.now bits.now) (length passed.old) (request start.0 arrival.0 s))
        result passed.old passed.new }
    ensures index_left { IndexLeft (domain_in rows.now) first.old low.old first.new low.new }
{
    tables::judge_rows(rows, first, low, chain)?;
    let d = IndexedRows {
        rows: rows,
        first: &*first,
        low: &*low,
    };
    requests::trace_rows(&d, words, bits, start, arrival, s, passed)
}

// The trace call, with room for the rows of the file's domain and for who has which address.
fn trace_in(
    setting: Setting,
    file: &[u8],
    rows: &mut [u64],
    first: &mut [u16],
    low: &mut [u8],
    words: &[u64],
    bits: &[u8],
    start: ExpanderNumber,
    arrival: PhyId,
    s: u64,
    passed: &mut [u8],
) -> Result<End, Refusal>
    requires { FileRoom setting file.now rows.old first.old low.old }
    ensures { TraceDone
        (trace_call setting file.now (entries words.now bits.now) (length passed.old) (request start.0 arrival.0 s))
        result passed.old passed.new }
{
    let n = tables::read_domain(setting, file, rows)?;
    let e = tables::ROW_WORDS * (n as usize);
    let chain = setting.chain;
    request_rows(
        &rows[..e],
        first,
        low,
        words,
        bits,
        start,
        arrival,
        s,
        passed,
        chain,
    )
}

// The trace call, with room of this size: words for rows, and entries for slots and phys.
fn trace_with<const ROWS: usize, const SLOTS: usize, const PHYS: usize>(
    setting: Setting,
    file: &[u8],
    words: &[u64],
    bits: &[u8],
    start: ExpanderNumber,
    arrival: PhyId,
    s: u64,
    passed: &mut [u8],
) -> Result<End, Refusal>
    requires { RoomFor (byte file.now 1) ROWS SLOTS PHYS }
    ensures { TraceDone
        (trace_call setting file.now (entries words.now bits.now) (length passed.old) (request start.0 arrival.0 s))
        result passed.old passed.new }
{
    let mut rows = [0u64; ROWS];
    let mut first = [0u16; SLOTS];
    let mut low = [0u8; PHYS];
    trace_in(
        setting,
        file,
        &mut rows[..],
        &mut first[..],
        &mut low[..],
        words,
        bits,
        start,
        arrival,
        s,
        passed,
    )
}

// The trace call: causes 22, 1 to 12, 23, 14, 15, 16, 18 and 17, or how the request ends over the words that count. The numbers of the expanders passed
// fill the first of the lent bytes; the rest stay, and all of them where it is refused. It takes room as `judge` does.
pub fn trace(
    setting: Setting,
    file: &[u8],
    words: &[u64],
    bits: &[u8],
    start: ExpanderNumber,
    arrival: PhyId,
    s: u64,
    passed: &mut [u8],
) -> Result<End, Refusal>
    ensures { TraceDone
        (trace_call setting file.now (entries words.now bits.now) (length passed.old) (request start.0 arrival.0 s))
        result passed.old passed.new }
{
    let n = tables::stated_count(file);
    if n <= 2 {
        return trace_with::<{ tables::ROWS_OF_2 }, { tables::SLOTS_OF_2 }, { tables::PHYS_OF_2 }>(
            setting, file, words, bits, start, arrival, s, passed,
        );
    }
    if n <= 8 {
        return trace_with::<{ tables::ROWS_OF_8 }, { tables::SLOTS_OF_8 }, { tables::PHYS_OF_8 }>(
            setting, file, words, bits, start, arrival, s, passed,
        );
    }
    if n > 64 {
        if file.len() > 2 {
            return trace(setting, &file[..2], words, bits, start, arrival, s, passed);
        }
    }
    trace_with::<{ tables::ROWS_OF_64 }, { tables::SLOTS_OF_64 }, { tables::PHYS_OF_64 }>(
        setting, file, words, bits, start, arrival, s, passed,
    )
}
