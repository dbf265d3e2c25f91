// The call that says one expander's step, and why.
ghost use Rattle.std.specs.Prelude.{◌≡◌, length};
ghost use Rattle.tables.specs.WiringDefinitions.{domain_in, check_answer, FileRoom};
ghost use Rattle.tables.specs.filling.Entries.{entries};
ghost use Rattle.tracing.specs.Trace.{request};
ghost use Rattle.tracing.specs.Reasons.{step_allowed, step_requested, step_asked, step_in, step_call, step_answer_of};

use crate::Told;
use crate::reasons::reason_for;
use crate::steps::take_step;
use tables::{ExpanderNumber, IndexedRows, PhyId, Refusal, Setting};

// Whether cause 15 does not hold: there is such an expander, and the arrival phy is 255 or attached.
fn may_arrive(rows: &[u64], i: ExpanderNumber, arrival: PhyId) -> bool
    ensures { result ≡ step_allowed (domain_in rows.now) i.0 arrival.0 }
{
    if tables::expander_count(rows) <= i.0 {
        return false;
    }
    if arrival.0 == 255 {
        return true;
    }
    tables::phy_type(tables::phy_at(rows, i, arrival)) != 0
}

// Causes 15, 16, 18 and 17, with so many table words and bytes for their bits lent.
fn check_step(
    rows: &[u64],
    words: usize,
    bits: usize,
    i: ExpanderNumber,
    arrival: PhyId,
    s: u64,
) -> Result<(), Refusal>
    ensures { check_answer (domain_in rows.now) result ≡ step_requested (request i.0 arrival.0 s) (record { words = words; bits = bits }) (domain_in rows.now) }
{
    if !may_arrive(rows, i, arrival) {
        return Err(tables::refused(15));
    }
    let needed = tables::needed_words(rows);
    if words < needed {
        return Err(tables::refused(16));
    }
    if bits < tables::bytes_for(needed) {
        return Err(tables::refused(18));
    }
    if s == 0 {
        return Err(tables::refused(17));
    }
    Ok(())
}

// One expander's step over rows: why it is refused, or the step and its reason.
fn step_rows(
    d: &IndexedRows,
    words: &[u64],
    bits: &[u8],
    i: ExpanderNumber,
    arrival: PhyId,
    s: u64,
) -> Result<Told, Refusal>
    ensures { result ≡ step_answer_of (step_asked (domain_in d.now.rows.now) (entries words.now bits.now) (request i.0 arrival.0 s)) }
{
    check_step(d.rows, words.len(), bits.len(), i, arrival, s)?;
    Ok(Told {
        reason: reason_for(d.rows, words, bits, i, arrival, s),
        step: take_step(d, words, bits, i, arrival, s),
    })
}

// Causes 7 to 12, 23 and 14 of a domain in rows, then its step. A chain may have `chain` expanders. `first` and `low` have
// room for who has which address; 16 where there is too little.
fn judged_step(
    rows: &[u64],
    first: &mut [u16],
    low: &mut [u8],
    words: &[u64],
    bits: &[u8],
    i: ExpanderNumber,
    arrival: PhyId,
    s: u64,
    chain: u8,
) -> Result<Told, Refusal>
    ensures { result ≡ step_answer_of (step_in chain (length first.old) (length low.old) (domain_in rows.now) (entries words.now bits.now) (request i.0 arrival.0 s)) }
{
    tables::judge_rows(rows, first, low, chain)?;
    let d = IndexedRows {
        rows: rows,
        first: &*first,
        low: &*low,
    };
    step_rows(&d, words, bits, i, arrival, s)
}

// The call, with room for the rows of the file's domain and for who has which address.
fn step_in(
    setting: Setting,
    file: &[u8],
    rows: &mut [u64],
    first: &mut [u16],
    low: &mut [u8],
    words: &[u64],
    bits: &[u8],
    i: ExpanderNumber,
    arrival: PhyId,
    s: u64,
) -> Result<Told, Refusal>
    requires { FileRoom setting file.now rows.old first.old low.old }
    ensures { result ≡ step_answer_of (step_call setting file.now (entries words.now bits.now) (request i.0 arrival.0 s)) }
{
    let n = tables::read_domain(setting, file, rows)?;
    let e = tables::ROW_WORDS * (n as usize);
    let chain = setting.chain;
    judged_step(&rows[..e], first, low, words, bits, i, arrival, s, chain)
}

// What expander i does with a request for address s that arrived at this phy, and why: causes 22, 1 to 12, 23, 14, 15, 16, 18
// and 17, or the reason and the step. Here the arrival phy may be attached to an expander.
pub fn explain_step(
    setting: Setting,
    file: &[u8],
    words: &[u64],
    bits: &[u8],
    i: ExpanderNumber,
    arrival: PhyId,
    s: u64,
) -> Result<Told, Refusal>
    ensures { result ≡ step_answer_of (step_call setting file.now (entries words.now bits.now) (request i.0 arrival.0 s)) }
{
    let mut rows = [0u64; tables::ROWS_OF_64];
    let mut first = [0u16; tables::SLOTS_OF_64];
    let mut low = [0u8; tables::PHYS_OF_64];
    step_in(
        setting,
        file,
        &mut rows[..],
        &mut first[..],
        &mut low[..],
        words,
        bits,
        i,
        arrival,
        s,
    )
}
