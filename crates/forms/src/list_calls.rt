// Many requests over a form.
ghost use Rattle.wiring.specs.phys.Checks.{RoomFor};
ghost use Rattle.std.specs.Prelude.{◌≤◌, ◌≡◌, length};
ghost use Rattle.tables.specs.filling.Entries.{entries, room_of};
ghost use Rattle.tracing.specs.RequestLists.{request_count, ListTraced};
ghost use Rattle.forms.specs.Form.{form_in};
ghost use Rattle.forms.specs.FormCalls.{form_list};
ghost use Rattle.forms.specs.FormRows.{FormRoom};

use crate::{form_opening, reading};
use wiring::{Refusal, Setting};

// A list of requests over a form, with room for the rows of its n expanders and for who has which address.
fn list_in(
    setting: Setting,
    form: &[u64],
    n: u8,
    rows: &mut [u64],
    first: &mut [u16],
    low: &mut [u8],
    words: &[u64],
    bits: &[u8],
    requests: &[u64],
    answers: &mut [u64],
) -> Result<usize, Refusal>
    requires { FormRoom form.now n rows.old first.old low.old }
    ensures { ListTraced
        (form_list setting form.now (room_of (entries words.now bits.now)) (length answers.old) (request_count requests.now))
        (entries words.now bits.now) requests.now result answers.old answers.new }
{
    if !wiring::is_in_range(setting) {
        return Err(wiring::refused(22));
    }
    if !form_opening::open_form(setting, form, rows, n) {
        return Err(wiring::refused(1));
    }
    let e = files::ROW_WORDS * (n as usize);
    let chain = setting.chain;
    let answer = tracing::trace_list(
        &rows[..e],
        first,
        low,
        words,
        bits,
        requests,
        answers,
        chain,
    );
    form_opening::over_form(answer)
}

// A list of requests over a form, with room of this size: words for rows, and entries for slots and phys.
fn list_with<const ROWS: usize, const SLOTS: usize, const PHYS: usize>(
    setting: Setting,
    form: &[u64],
    n: u8,
    words: &[u64],
    bits: &[u8],
    requests: &[u64],
    answers: &mut [u64],
) -> Result<usize, Refusal>
    requires { ((n ≡ length (form_in form.now)) × (n ≤ 64)) × RoomFor n ROWS SLOTS PHYS }
    ensures { ListTraced
        (form_list setting form.now (room_of (entries words.now bits.now)) (length answers.old) (request_count requests.now))
        (entries words.now bits.now) requests.now result answers.old answers.new }
{
    let mut rows = [0u64; ROWS];
    let mut first = [0u16; SLOTS];
    let mut low = [0u8; PHYS];
    list_in(
        setting,
        form,
        n,
        &mut rows[..],
        &mut first[..],
        &mut low[..],
        words,
        bits,
        requests,
        answers,
    )
}

// A list of requests over a form: 22, 1 where the words are the form of no accepted domain, then 16 and 18. A request's own 15 or 17 stands
// as its answer. The answers fill the first of the lent words; the rest stay, and all of them where it is refused.
// More than 16,512 words are no form, as no words are none; that it calls itself there gives each room a stack frame of its own
// (docs/DECISIONS.md, 17).
pub fn form_list(
    setting: Setting,
    form: &[u64],
    words: &[u64],
    bits: &[u8],
    requests: &[u64],
    answers: &mut [u64],
) -> Result<usize, Refusal>
    ensures { ListTraced
        (form_list setting form.now (room_of (entries words.now bits.now)) (length answers.old) (request_count requests.now))
        (entries words.now bits.now) requests.now result answers.old answers.new }
{
    let n = reading::count_expanders(form);
    if n <= 2 {
        return list_with::<{ files::ROWS_OF_2 }, { wiring::SLOTS_OF_2 }, { wiring::PHYS_OF_2 }>(
            setting, form, n, words, bits, requests, answers,
        );
    }
    if n <= 8 {
        return list_with::<{ files::ROWS_OF_8 }, { wiring::SLOTS_OF_8 }, { wiring::PHYS_OF_8 }>(
            setting, form, n, words, bits, requests, answers,
        );
    }
    if form.len() > files::ROWS_OF_64 {
        return form_list(setting, &form[..0], words, bits, requests, answers);
    }
    list_with::<{ files::ROWS_OF_64 }, { wiring::SLOTS_OF_64 }, { wiring::PHYS_OF_64 }>(
        setting, form, n, words, bits, requests, answers,
    )
}
