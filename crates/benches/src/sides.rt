// The two files, each by itself: read into rows and judged there, and 21; then 3 where their expanders are too many.
ghost use Rattle.std.specs.Prelude.{◌≡◌, ◌+◌, ◌≤◌, ◌<◌, min};
ghost use Rattle.frames.specs.Bytes.{byte};
ghost use Rattle.wiring.specs.FrameDefinitions.{then, refusal};
ghost use Rattle.tables.specs.JudgingCall.{judged};
ghost use Rattle.benches.specs.SidesFound.{side_of, counts_for, files_for, stated_both, JoinRoom};

use crate::{Counts, SideFound, free};
use wiring::{ExpanderNumber, PhyId, Refusal, Setting};

// Reads one file into rows, judges it there, and tests whether phy p of its expander i can take the cable.
fn judge_side(
    setting: Setting,
    file: &[u8],
    i: ExpanderNumber,
    p: PhyId,
    rows: &mut [u64],
    who: &mut [u16],
    low: &mut [u8],
) -> Result<SideFound, Refusal>
    requires { JoinRoom (min 64 (byte file.now 1)) rows.old who.old low.old }
    ensures { result ≡ then (judged setting file.now) (side_of i.0 p.0) }
{
    let n = wiring::read_domain(setting, file, rows)?;
    let e = files::ROW_WORDS * (n as usize);
    tables::judge_rows(&rows[..e], who, low, setting.chain)?;
    Ok(SideFound {
        count: n,
        free: free::is_free(&rows[..e], i, p),
    })
}

// 21 where not both named phys can take the cable, then 3 where n and m expanders are more than `most`.
fn count_both(most: u8, n: u8, m: u8, free: bool) -> Result<Counts, Refusal>
    requires { (n ≤ 64) × (m ≤ 64) }
    ensures { result ≡ counts_for most n m free }
{
    if !free {
        return Err(wiring::refused(21));
    }
    if n + m > most {
        return Err(wiring::refused(3));
    }
    Ok(Counts { one: n, other: m })
}

// A refusal of the second file: the first's n expanders are added to its expander number.
fn shifted(n: u8, r: Refusal) -> Refusal
    requires { n + r.expander.0 < 256 }
    ensures { result ≡ refusal r.number (n + r.expander.0) r.phy.0 }
{
    wiring::refusal_at(r.number, ExpanderNumber(n + r.expander.0), r.phy)
}

// The first file judged, the second file judged (its refusals with the first's expanders added to their expander), 21, and 3.
pub(crate) fn judge_files(
    setting: Setting,
    first: &[u8],
    i: ExpanderNumber,
    p: PhyId,
    second: &[u8],
    j: ExpanderNumber,
    q: PhyId,
    rows: &mut [u64],
    who: &mut [u16],
    low: &mut [u8],
) -> Result<Counts, Refusal>
    requires { JoinRoom (stated_both first.now second.now) rows.old who.old low.old }
    ensures { result ≡ files_for setting first.now i.0 p.0 second.now j.0 q.0 }
{
    let one = judge_side(setting, first, i, p, rows, who, low)?;
    match judge_side(setting, second, j, q, rows, who, low) {
        Err(r) => Err(shifted(one.count, r)),
        Ok(other) => count_both(
            setting.expanders,
            one.count,
            other.count,
            one.free & other.free,
        ),
    }
}
