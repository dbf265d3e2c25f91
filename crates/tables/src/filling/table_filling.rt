// One table, in words of its own: the own lists of its levels, and zeros after them. The words that change are counted as they
// are written.
ghost use Rattle.std.specs.Prelude.{◌≡◌, cond, ◌+◌, ◌-◌, ◌≤◌, length, take, replicate, eqb};
ghost use mathlib.Core.List.{◌++◌, flat_map};
ghost use Rattle.files.specs.Rows.{domain_in};
ghost use Rattle.tables.specs.lists.OwnLists.{own_words};
ghost use Rattle.tables.specs.lists.GrowingLists.{Grown};
ghost use Rattle.tables.specs.lists.PreparedLists.{own_words_of_order, filled_to, FilledFrom};
ghost use Rattle.tables.specs.filling.WordsChanged.{changed, copied, Replaced};

use crate::lists::prepared_rows::PreparedRows;
use wiring::{ExpanderNumber, PhyId};

// How many words of a part are written, and how many of them changed.
#[derive(Clone, Copy)]
struct Copied {
    at: usize,
    words: usize,
}

// 1 where two words differ, else 0.
fn differ(v: u64, w: u64) -> usize
    ensures { (result ≡ cond (eqb v w) 0 1) × (result ≤ 1) }
{
    if v == w {
        return 0;
    }
    1
}

// Copies the words after the first ones of `part`.
fn copy_words(words: &[u64], part: &mut [u64], s: Copied) -> Copied
    requires { (s.words ≤ s.at) × (s.at + length words.now ≤ length part.old) }
    ensures { Grown part.old part.new result.at (take s.at part.old ++ words.now)
        × Replaced s result part.old part.new }
{
    let mut to = s.at;
    let mut sum = s.words;
    for k in 0..words.len() {
        sum += differ(part[to], words[k]);
        part[to] = words[k];
        to += 1;
    }
    Copied { at: to, words: sum }
}

// Copies expander i's own list there.
fn copy_own(d: &PreparedRows, i: ExpanderNumber, part: &mut [u64], s: Copied) -> Copied
    requires { (s.words ≤ s.at) × (s.at + length (own_words (domain_in d.now.levels.attached.rows.now) i.0) ≤ length part.old) }
    ensures { Grown part.old part.new result.at (take s.at part.old ++ own_words (domain_in d.now.levels.attached.rows.now) i.0)
        × Replaced s result part.old part.new }
{
    if i.0 >= wiring::expander_count(d.levels.attached.rows) {
        return s;
    }
    let a = crate::OWN_LIST_WORDS * (i.0 as usize);
    let from = a + 1;
    let to = from + d.lists[a] as usize;
    copy_words(&d.lists[from..to], part, s)
}

// Copies the own lists of these expanders, one after the other, from the front on.
fn copy_lists(d: &PreparedRows, order: &[u8], part: &mut [u64]) -> Copied
    requires { length (flat_map (own_words (domain_in d.now.levels.attached.rows.now)) order.now) ≤ length part.old }
    ensures { Grown part.old part.new result.at (flat_map (own_words (domain_in d.now.levels.attached.rows.now)) order.now)
        × Replaced (copied 0 0) result part.old part.new }
{
    let mut s = Copied { at: 0, words: 0 };
    for k in 0..order.len() {
        let i = ExpanderNumber(order[k]);
        s = copy_own(d, i, part, s);
    }
    s
}

// Zeros after the first words of `part`; the answer is how many words changed in all.
fn clear_from(part: &mut [u64], s: Copied) -> usize
    requires { (s.words ≤ s.at) × (s.at ≤ length part.old) }
    ensures { (part.new ≡ take s.at part.old ++ replicate (length part.old - s.at) 0)
        × ((result ≡ s.words + changed part.old part.new) × (result + s.at ≤ s.words + length part.old)) }
{
    let mut sum = s.words;
    for i in s.at..part.len() {
        sum += differ(part[i], 0);
        part[i] = 0;
    }
    sum
}

// The table of phy p of expander x, in words of its own: the own lists of its order, and zeros after them. `order` has the
// expanders of the phy's levels. The answer is how many words changed.
pub(crate) fn fill_table(
    d: &PreparedRows,
    order: &[u8],
    x: ExpanderNumber,
    p: PhyId,
    part: &mut [u64],
) -> usize
    requires { FilledFrom (domain_in d.now.levels.attached.rows.now) x.0 p.0 order.now (length part.old) }
    ensures { (part.new ≡ filled_to (length part.old) (own_words_of_order (domain_in d.now.levels.attached.rows.now) x.0 p.0))
        × ((result ≡ changed part.old part.new) × (result ≤ length part.old)) }
{
    let s = copy_lists(d, order, part);
    clear_from(part, s)
}
