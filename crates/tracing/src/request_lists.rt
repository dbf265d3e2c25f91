// A list of requests over one domain that is judged once.
ghost use Rattle.std.specs.Prelude.{◌≡◌, ◌++◌, ◌≤◌, length, drop};
ghost use Rattle.tables.specs.WiringDefinitions.{domain_in, IndexLeft};
ghost use Rattle.tables.specs.filling.Tables.{needed};
ghost use Rattle.tables.specs.filling.Entries.{entries, room_of, Enough};
ghost use Rattle.tracing.specs.Trace.{request, traced_request, TraceDone};
ghost use Rattle.tracing.specs.RequestLists.{one_answer, answers_of, request_count, list_for, list_in, ListTraced, RequestReady};

use crate::walks::walk;
use crate::{End, packing, requests};
use tables::{ExpanderNumber, IndexedRows, PhyId, Refusal, refused};

// A request where the tables, their bits and the expanders passed have room: 15 and 17 are left to test.
fn trace_lent(
    d: &IndexedRows,
    words: &[u64],
    bits: &[u8],
    start: ExpanderNumber,
    arrival: PhyId,
    s: u64,
    passed: &mut [u8],
) -> Result<End, Refusal>
    requires { RequestReady (domain_in d.now.rows.now) (room_of (entries words.now bits.now)) passed.old }
    ensures { TraceDone
        (traced_request (domain_in d.now.rows.now) (entries words.now bits.now) (length passed.old) (request start.0 arrival.0 s))
        result passed.old passed.new }
{
    if !requests::is_allowed(d.rows, start, arrival) {
        return Err(refused(15));
    }
    if s == 0 {
        return Err(refused(17));
    }
    Ok(walk(d, words, bits, start, arrival, s, passed))
}

// The answer to the request of two words: 15 where the first is 65536 or more.
fn answer_one(d: &IndexedRows, words: &[u64], bits: &[u8], w: u64, s: u64) -> u64
    requires { Enough (needed (domain_in d.now.rows.now)) (room_of (entries words.now bits.now)) }
    ensures { result ≡ one_answer (domain_in d.now.rows.now) (entries words.now bits.now) w s }
{
    if w >= 65536 {
        return packing::pack_refusal(refused(15));
    }
    let mut passed = [0u8; 64];
    let start = ExpanderNumber((w / 256) as u8);
    let arrival = PhyId((w % 256) as u8);
    let answer = trace_lent(d, words, bits, start, arrival, s, &mut passed[..]);
    packing::pack_trace(answer)
}

// Writes the answers to all requests, one after the other; the words after them stay.
fn answer_all(d: &IndexedRows, words: &[u64], bits: &[u8], requests: &[u64], answers: &mut [u64])
    requires { Enough (needed (domain_in d.now.rows.now)) (room_of (entries words.now bits.now)) × (request_count requests.now ≤ length answers.old) }
    ensures { answers.new ≡ answers_of (domain_in d.now.rows.now) (entries words.now bits.now) requests.now ++ drop (request_count requests.now) answers.old }
{
    let n = requests.len() / 2;
    for k in 0..n {
        answers[k] = answer_one(d, words, bits, requests[2 * k], requests[2 * k + 1]);
    }
}

// 16 and 18, then the answers.
fn answer_list(
    d: &IndexedRows,
    words: &[u64],
    bits: &[u8],
    requests: &[u64],
    answers: &mut [u64],
) -> Result<usize, Refusal>
    ensures { ListTraced
        (list_for (room_of (entries words.now bits.now)) (length answers.old) (request_count requests.now) (domain_in d.now.rows.now))
        (entries words.now bits.now) requests.now result answers.old answers.new }
{
    let needed = tables::needed_words(d.rows);
    let n = requests.len() / 2;
    if words.len() < needed {
        return Err(refused(16));
    }
    if answers.len() < n {
        return Err(refused(16));
    }
    if bits.len() < tables::bytes_for(needed) {
        return Err(refused(18));
    }
    answer_all(d, words, bits, requests, answers);
    Ok(n)
}

// Causes 7 to 12, 23 and 14, then 16 and 18, then the answer to each request: its own 15 or 17, or how it ends. A chain may have `chain`
// expanders. `first` and `low` have room for who has which address, and are left as `judge_rows` leaves them; 16 where there is too little.
pub fn trace_list(
    rows: &[u64],
    first: &mut [u16],
    low: &mut [u8],
    words: &[u64],
    bits: &[u8],
    requests: &[u64],
    answers: &mut [u64],
    chain: u8,
) -> Result<usize, Refusal>
    ensures list_traced { ListTraced
        (list_in chain (length first.old) (length low.old) (domain_in rows.now) (room_of (entries words.now bits.now)) (length answers.old) (request_count requests.now))
        (entries words.now bits.now) requests.now result answers.old answers.new }
    ensures index_left { IndexLeft (domain_in rows.now) first.old low.old first.new low.new }
{
    tables::judge_rows(rows, first, low, chain)?;
    let d = IndexedRows {
        rows: rows,
        first: &*first,
        low: &*low,
    };
    answer_list(&d, words, bits, requests, answers)
}
