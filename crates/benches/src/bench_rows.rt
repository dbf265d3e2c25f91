// The joined domain in rows: made from two files, and judged.
ghost use Rattle.std.specs.Prelude.{◌≡◌, ◌+◌, ◌*◌, ◌≤◌, ◌<◌, length, take};
ghost use Rattle.wiring.specs.phys.Checks.{check_answer};
ghost use Rattle.files.specs.Rows.{domain_in, row_words};
ghost use Rattle.tables.specs.JudgingCall.{judged};
ghost use Rattle.benches.specs.Bytes.{joined_file};
ghost use Rattle.benches.specs.BenchRows.{both_read, cabled, apart_in, check_of};
ghost use Rattle.benches.specs.Joined.{cabled_to};
ghost use Rattle.benches.specs.SidesFound.{Accepted, Ready, JoinRoom};

use crate::repeats;
use wiring::{ExpanderNumber, Phy, PhyFields, PhyId, Refusal, Setting};

// Reads two accepted files of n and m expanders into rows: the first's, then the second's.
fn read_both(setting: Setting, first: &[u8], n: u8, second: &[u8], m: u8, rows: &mut [u64])
    requires { (Accepted setting first.now n × Accepted setting second.now m) × ((n + m ≤ 64) × (row_words * (n + m) ≤ length rows.old)) }
    ensures { domain_in (take (row_words * (n + m)) rows.new) ≡ both_read setting first.now second.now }
{
    let a = files::ROW_WORDS * (n as usize);
    // both were accepted by themselves, so neither is refused
    let _ = wiring::read_domain(setting, first, rows);
    let _ = wiring::read_domain(setting, second, &mut rows[a..]);
}

// A subtractive phy cabled to phy q of the expander with address s.
fn cabled_to(s: u64, q: PhyId) -> Phy
    ensures { result ≡ cabled_to s q.0 }
{
    Phy::Present(PhyFields {
        device_type: 2,
        attribute: 1,
        address: s,
        attached_phy: q,
    })
}

// Writes the cable at both ends: phy p of expander i, and phy q of the expander that comes j after the first n.
fn cable_rows(rows: &mut [u64], n: u8, i: ExpanderNumber, p: PhyId, j: ExpanderNumber, q: PhyId)
    requires { n + j.0 < 256 }
    ensures { domain_in rows.new ≡ cabled (domain_in rows.old) n i.0 p.0 j.0 q.0 }
{
    let k = ExpanderNumber(n + j.0);
    let s = wiring::expander_address(rows, i);
    let t = wiring::expander_address(rows, k);
    wiring::set_phy(rows, i, p, cabled_to(t, q));
    wiring::set_phy(rows, k, q, cabled_to(s, p));
}

// Judges rows that no single file was read into: 4, then causes 7 to 12, 23 and 14 as they are judged in every file's rows.
fn judge_apart(rows: &[u64], who: &mut [u16], low: &mut [u8], chain: u8) -> Result<(), Refusal>
    ensures { check_answer (domain_in rows.now) result ≡ apart_in chain (length who.old) (length low.old) (domain_in rows.now) }
{
    let k = repeats::first_repeated(rows);
    if k < wiring::expander_count(rows) {
        return Err(wiring::refusal_at(4, ExpanderNumber(k), PhyId(0)));
    }
    tables::judge_rows(rows, who, low, chain)
}

// Judges the joined domain in rows: what judging the joined file says.
pub(crate) fn judge_both(
    setting: Setting,
    first: &[u8],
    n: u8,
    i: ExpanderNumber,
    p: PhyId,
    second: &[u8],
    m: u8,
    j: ExpanderNumber,
    q: PhyId,
    rows: &mut [u64],
    who: &mut [u16],
    low: &mut [u8],
) -> Result<(), Refusal>
    requires { Ready setting first.now n i.0 p.0 second.now m j.0 q.0 × JoinRoom (n + m) rows.old who.old low.old }
    ensures { result ≡ check_of (judged setting (joined_file first.now i.0 p.0 second.now j.0 q.0)) }
{
    read_both(setting, first, n, second, m, rows);
    let e = files::ROW_WORDS * ((n + m) as usize);
    cable_rows(&mut rows[..e], n, i, p, j, q);
    judge_apart(&rows[..e], who, low, setting.chain)
}
