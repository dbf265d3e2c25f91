// Tables over a form.
ghost use Rattle.wiring.specs.phys.Checks.{RoomFor};
ghost use Rattle.std.specs.Prelude.{◌≤◌, ◌≡◌, length};
ghost use Rattle.tables.specs.filling.Entries.{entries, room_of};
ghost use Rattle.tables.specs.JudgingCall.{TablesDone};
ghost use Rattle.forms.specs.Form.{form_in};
ghost use Rattle.forms.specs.FormCalls.{form_tables};
ghost use Rattle.forms.specs.FormRows.{FormRoom};

use crate::{form_opening, reading};
use tables::Counted;
use wiring::{Refusal, Setting};

// The tables of a form, with room for the rows of its n expanders and for who has which address.
fn tables_in(
    setting: Setting,
    form: &[u64],
    n: u8,
    rows: &mut [u64],
    first: &mut [u16],
    low: &mut [u8],
    words: &mut [u64],
    bits: &mut [u8],
) -> Result<Counted, Refusal>
    requires { FormRoom form.now n rows.old first.old low.old }
    ensures { TablesDone (form_tables setting form.now (room_of (entries words.old bits.old)))
        result (entries words.old bits.old) (entries words.new bits.new) }
{
    if !wiring::is_in_range(setting) {
        return Err(wiring::refused(22));
    }
    if !form_opening::open_form(setting, form, rows, n) {
        return Err(wiring::refused(1));
    }
    let e = files::ROW_WORDS * (n as usize);
    let chain = setting.chain;
    let answer = tables::give_rows(&rows[..e], first, low, words, bits, chain);
    form_opening::over_form(answer)
}

// The tables of a form, with room of this size: words for rows, and entries for slots and phys.
fn tables_with<const ROWS: usize, const SLOTS: usize, const PHYS: usize>(
    setting: Setting,
    form: &[u64],
    n: u8,
    words: &mut [u64],
    bits: &mut [u8],
) -> Result<Counted, Refusal>
    requires { ((n ≡ length (form_in form.now)) × (n ≤ 64)) × RoomFor n ROWS SLOTS PHYS }
    ensures { TablesDone (form_tables setting form.now (room_of (entries words.old bits.old)))
        result (entries words.old bits.old) (entries words.new bits.new) }
{
    let mut rows = [0u64; ROWS];
    let mut first = [0u16; SLOTS];
    let mut low = [0u8; PHYS];
    tables_in(
        setting,
        form,
        n,
        &mut rows[..],
        &mut first[..],
        &mut low[..],
        words,
        bits,
    )
}

// The tables of a form: 22, 1 where the words are the form of no accepted domain, then 16 and 18. It leaves and answers what the table call
// does on a file with this form.
// More than 16,512 words are no form, as no words are none; that it calls itself there gives each room a stack frame of its own
// (docs/DECISIONS.md, 17).
pub fn form_tables(
    setting: Setting,
    form: &[u64],
    words: &mut [u64],
    bits: &mut [u8],
) -> Result<Counted, Refusal>
    ensures { TablesDone (form_tables setting form.now (room_of (entries words.old bits.old)))
        result (entries words.old bits.old) (entries words.new bits.new) }
{
    let n = reading::count_expanders(form);
    if n <= 2 {
        return tables_with::<{ files::ROWS_OF_2 }, { wiring::SLOTS_OF_2 }, { wiring::PHYS_OF_2 }>(
            setting, form, n, words, bits,
        );
    }
    if n <= 8 {
        return tables_with::<{ files::ROWS_OF_8 }, { wiring::SLOTS_OF_8 }, { wiring::PHYS_OF_8 }>(
            setting, form, n, words, bits,
        );
    }
    if form.len() > files::ROWS_OF_64 {
        return form_tables(setting, &form[..0], words, bits);
    }
    tables_with::<{ files::ROWS_OF_64 }, { wiring::SLOTS_OF_64 }, { wiring::PHYS_OF_64 }>(
        setting, form, n, words, bits,
    )
}
