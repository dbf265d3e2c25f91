// The join call.
ghost use Rattle.wiring.specs.phys.Checks.{RoomFor};
ghost use Rattle.std.specs.Prelude.{◌+◌, ◌≤◌, length};
ghost use Rattle.frames.specs.Bytes.{byte};
ghost use Rattle.benches.specs.JoinCall.{join_call, JoinDone};
ghost use Rattle.benches.specs.SidesFound.{Ready, stated_both, JoinRoom};

use crate::{bench_rows, sides, writing};
use wiring::{ExpanderNumber, PhyId, Refusal, Setting};

// Judges the joined domain in rows, and writes the joined file where it is accepted and there is room: 16.
fn join_ready(
    setting: Setting,
    first: &[u8],
    n: u8,
    i: ExpanderNumber,
    p: PhyId,
    second: &[u8],
    m: u8,
    j: ExpanderNumber,
    q: PhyId,
    out: &mut [u8],
    rows: &mut [u64],
    who: &mut [u16],
    low: &mut [u8],
) -> Result<usize, Refusal>
    requires { Ready setting first.now n i.0 p.0 second.now m j.0 q.0 × JoinRoom (n + m) rows.old who.old low.old }
    ensures { JoinDone (join_call setting first.now i.0 p.0 second.now j.0 q.0 (length out.old)) result out.old out.new }
{
    bench_rows::judge_both(setting, first, n, i, p, second, m, j, q, rows, who, low)?;
    let size = first.len() + (second.len() - 2);
    if out.len() < size {
        return Err(wiring::refused(16));
    }
    writing::put_joined(out, first, i, p, second, j, q);
    Ok(size)
}

// Both files judged, 21 and 3, then the joined domain judged, then 16: with room for the rows of both files and for who has which address.
fn join_in(
    setting: Setting,
    first: &[u8],
    i: ExpanderNumber,
    p: PhyId,
    second: &[u8],
    j: ExpanderNumber,
    q: PhyId,
    out: &mut [u8],
    rows: &mut [u64],
    who: &mut [u16],
    low: &mut [u8],
) -> Result<usize, Refusal>
    requires { JoinRoom (stated_both first.now second.now) rows.old who.old low.old }
    ensures { JoinDone (join_call setting first.now i.0 p.0 second.now j.0 q.0 (length out.old)) result out.old out.new }
{
    let counts = sides::judge_files(setting, first, i, p, second, j, q, rows, who, low)?;
    join_ready(
        setting,
        first,
        counts.one,
        i,
        p,
        second,
        counts.other,
        j,
        q,
        out,
        rows,
        who,
        low,
    )
}

// The join call, with room of this size: words for rows, and entries for slots and phys.
fn join_with<const ROWS: usize, const SLOTS: usize, const PHYS: usize>(
    setting: Setting,
    first: &[u8],
    i: ExpanderNumber,
    p: PhyId,
    second: &[u8],
    j: ExpanderNumber,
    q: PhyId,
    out: &mut [u8],
) -> Result<usize, Refusal>
    requires { RoomFor (byte first.now 1 + byte second.now 1) ROWS SLOTS PHYS }
    ensures { JoinDone (join_call setting first.now i.0 p.0 second.now j.0 q.0 (length out.old)) result out.old out.new }
{
    let mut rows = [0u64; ROWS];
    let mut who = [0u16; SLOTS];
    let mut low = [0u8; PHYS];
    join_in(
        setting,
        first,
        i,
        p,
        second,
        j,
        q,
        out,
        &mut rows[..],
        &mut who[..],
        &mut low[..],
    )
}

// Joins two files by one cable between phy p of expander i of the first and phy q of expander j of the second: 22, the
// first file judged, the second file judged (its refusals with the first's expanders added to their expander), 21, the joined
// domain judged, 16. It answers how many bytes the joined file has. The bytes after stay, and all of them where it is refused.
// Few expanders need little room. A first file that states more than 64 is refused by the setting or its first two bytes; that
// it calls itself there gives each room a stack frame of its own (docs/DECISIONS.md, 17).
pub fn join(
    setting: Setting,
    first: &[u8],
    i: ExpanderNumber,
    p: PhyId,
    second: &[u8],
    j: ExpanderNumber,
    q: PhyId,
    out: &mut [u8],
) -> Result<usize, Refusal>
    ensures { JoinDone (join_call setting first.now i.0 p.0 second.now j.0 q.0 (length out.old)) result out.old out.new }
{
    let n = wiring::stated_count(first);
    if n > 64 {
        if first.len() > 2 {
            return join(setting, &first[..2], i, p, second, j, q, out);
        }
    }
    let m = wiring::stated_count(second);
    if (n as usize) + (m as usize) <= 8 {
        return join_with::<{ files::ROWS_OF_8 }, { wiring::SLOTS_OF_8 }, { wiring::PHYS_OF_8 }>(
            setting, first, i, p, second, j, q, out,
        );
    }
    join_with::<{ files::ROWS_OF_64 }, { wiring::SLOTS_OF_64 }, { wiring::PHYS_OF_64 }>(
        setting, first, i, p, second, j, q, out,
    )
}
