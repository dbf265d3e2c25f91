// Reads a form into rows, and tests it.
ghost use Rattle.std.specs.Prelude.{◌≡◌, ◌*◌, ◌≤◌, length};
ghost use Rattle.forms.specs.Form.{form_in};
ghost use Rattle.forms.specs.FormRows.{FormOpened, as_form, over_form};
ghost use Rattle.files.specs.Rows.{row_words};

use crate::{comparing, reading, testing};
use wiring::{Refusal, Setting, refused};

// A refusal of a call over rows, as one over a form: 15 to 18 stay, and those of judging are 1 at place 0, 0.
pub(crate) fn of_form(r: Refusal) -> Refusal
    ensures { result ≡ as_form r }
{
    if r.number < 15 {
        return refused(1);
    }
    if r.number > 18 {
        return refused(1);
    }
    r
}

// What a call over rows answers, as one over a form.
pub(crate) fn over_form<T>(answer: Result<T, Refusal>) -> Result<T, Refusal>
    ensures { result ≡ over_form answer }
{
    match answer {
        Err(r) => Err(of_form(r)),
        Ok(x) => Ok(x),
    }
}

// Reads the words into the rows of the n expanders that they read as, and yields whether none of 3, 4 and 6 holds and the words are right
// for what they read as.
pub(crate) fn open_form(most: Setting, ws: &[u64], rows: &mut [u64], n: u8) -> bool
    requires { ((n ≡ length (form_in ws.now)) × (n ≤ 64)) × (row_words * n ≤ length rows.old) }
    ensures { FormOpened most ws.now n result rows.new }
{
    reading::read_rows(ws, rows, n);
    let e = files::ROW_WORDS * (n as usize);
    if testing::is_unread(most, &rows[..e]) {
        return false;
    }
    comparing::are_right(&rows[..e], ws)
}
