// Traces over a form.
ghost use Rattle.wiring.specs.phys.Checks.{RoomFor};
ghost use Rattle.std.specs.Prelude.{◌≤◌, ◌≡◌, length};
ghost use Rattle.tables.specs.filling.Entries.{entries};
ghost use Rattle.tracing.specs.Trace.{request, TraceDone};
ghost use Rattle.forms.specs.Form.{form_in};
ghost use Rattle.forms.specs.FormCalls.{form_trace};
ghost use Rattle.forms.specs.FormRows.{FormRoom};

use crate::{form_opening, reading};
use tracing::End;
use wiring::{ExpanderNumber, PhyId, Refusal, Setting};

// A trace over a form, with room for the rows of its n expanders and for who has which address.
fn trace_in(
    setting: Setting,
    form: &[u64],
    n: u8,
    rows: &mut [u64],
    first: &mut [u16],
    low: &mut [u8],
    words: &[u64],
    bits: &[u8],
    start: ExpanderNumber,
    arrival: PhyId,
    s: u64,
    passed: &mut [u8],
) -> Result<End, Refusal>
    requires { FormRoom form.now n rows.old first.old low.old }
    ensures { TraceDone
        (form_trace setting form.now (entries words.now bits.now) (length passed.old) (request start.0 arrival.0 s))
        result passed.old passed.new }
{
    if !wiring::is_in_range(setting) {
        return Err(wiring::refused(22));
    }
    if !form_opening::open_form(setting, form, rows, n) {
        return Err(wiring::refused(1));
    }
    let e = files::ROW_WORDS * (n as usize);
    let chain = setting.chain;
    let answer = tracing::request_rows(
        &rows[..e],
        first,
        low,
        words,
        bits,
        start,
        arrival,
        s,
        passed,
        chain,
    );
    form_opening::over_form(answer)
}

// A trace over a form, with room of this size: words for rows, and entries for slots and phys.
fn trace_with<const ROWS: usize, const SLOTS: usize, const PHYS: usize>(
    setting: Setting,
    form: &[u64],
    n: u8,
    words: &[u64],
    bits: &[u8],
    start: ExpanderNumber,
    arrival: PhyId,
    s: u64,
    passed: &mut [u8],
) -> Result<End, Refusal>
    requires { ((n ≡ length (form_in form.now)) × (n ≤ 64)) × RoomFor n ROWS SLOTS PHYS }
    ensures { TraceDone
        (form_trace setting form.now (entries words.now bits.now) (length passed.old) (request start.0 arrival.0 s))
        result passed.old passed.new }
{
    let mut rows = [0u64; ROWS];
    let mut first = [0u16; SLOTS];
    let mut low = [0u8; PHYS];
    trace_in(
        setting,
        form,
        n,
        &mut rows[..],
        &mut first[..],
        &mut low[..],
        words,
        bits,
        start,
        arrival,
        s,
        passed,
    )
}

// A trace over a form: 22, 1 where the words are the form of no accepted domain, then 15, 16, 18 and 17, or how the request ends over the
// words that count. The numbers of the expanders passed fill the first of the lent bytes; the rest stay, and all of them where it is refused.
// More than 16,512 words are no form, as no words are none; that it calls itself there gives each room a stack frame of its own
// (docs/DECISIONS.md, 17).
pub fn form_trace(
    setting: Setting,
    form: &[u64],
    words: &[u64],
    bits: &[u8],
    start: ExpanderNumber,
    arrival: PhyId,
    s: u64,
    passed: &mut [u8],
) -> Result<End, Refusal>
    ensures { TraceDone
        (form_trace setting form.now (entries words.now bits.now) (length passed.old) (request start.0 arrival.0 s))
        result passed.old passed.new }
{
    let n = reading::count_expanders(form);
    if n <= 2 {
        return trace_with::<{ files::ROWS_OF_2 }, { wiring::SLOTS_OF_2 }, { wiring::PHYS_OF_2 }>(
            setting, form, n, words, bits, start, arrival, s, passed,
        );
    }
    if n <= 8 {
        return trace_with::<{ files::ROWS_OF_8 }, { wiring::SLOTS_OF_8 }, { wiring::PHYS_OF_8 }>(
            setting, form, n, words, bits, start, arrival, s, passed,
        );
    }
    if form.len() > files::ROWS_OF_64 {
        return form_trace(setting, &form[..0], words, bits, start, arrival, s, passed);
    }
    trace_with::<{ files::ROWS_OF_64 }, { wiring::SLOTS_OF_64 }, { wiring::PHYS_OF_64 }>(
        setting, form, n, words, bits, start, arrival, s, passed,
    )
}
