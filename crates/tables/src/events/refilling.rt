// The tables with an expander in their order, written afresh among words and bits that hold tables already.
ghost use Rattle.std.specs.Prelude.{◌≡◌, [], ◌∷◌, ◌+◌, ◌-◌, ◌*◌, ◌%◌, ◌^◌, ◌≤◌, ◌<◌, length, set};
ghost use Rattle.std.proofs.lemmas.List.Edits.{sets};
ghost use Rattle.wiring.specs.FrameDefinitions.{bits_of, zero_bit, zero_bits};
ghost use Rattle.files.specs.Domain.{phy_at};
ghost use Rattle.wiring.specs.phys.PhyCauses.{place};
ghost use Rattle.files.specs.Rows.{domain_in};
ghost use Rattle.tables.specs.filling.Entries.{entries, room_of};
ghost use Rattle.tables.specs.filling.Tables.{size};
ghost use Rattle.tables.specs.lists.GrowingLists.{places_at};
ghost use Rattle.tables.specs.lists.PreparedLists.{own_words_of_order, filled_to, FilledFrom};
ghost use Rattle.tables.specs.filling.WordsChanged.{changed};
ghost use Rattle.tables.specs.events.TablesRewritten.{table_link, Passed, TallyBounds, Rewritten, RefillReady, RefillsReady, RefillAllReady, RefilledAll};

use crate::Moved;
use crate::filling::{table_filling, table_sizes};
use crate::levels::order::KeptOrder;
use crate::levels::{downstream, order};
use crate::lists::prepared_rows::PreparedRows;
use wiring::{ExpanderNumber, Phy, PhyId};

// How far the tables gone through reach, how many of them were touched, and how many words changed.
#[derive(Clone, Copy)]
struct Tally {
    at: usize,
    tables: usize,
    words: usize,
}

// The disable bit of a word.
fn zero_bit(w: u64) -> u64
    ensures { (result ≡ zero_bit w) × (result < 2) }
{
    if w == 0 {
        return 1;
    }
    0
}

// Sets bit k to b.
fn set_bit(s: &mut [u8], k: usize, b: u64)
    requires { (k < 8 * length s.old) × (b < 2) }
    ensures { bits_of s.new ≡ set (bits_of s.old) k b }
{
    let j = k / 8;
    let v = s[j];
    s[j] = wiring::with_bit(v, k, b);
}

// Sets the bits from `at` on one by one, a bit for each word, exactly where the word is zero. All other bits stay.
fn mark_each(part: &[u64], bits: &mut [u8], at: usize)
    requires { (at + length part.now ≤ 8 * length bits.old) × (at + length part.now < 2 ^ 64) }
    ensures { bits_of bits.new ≡ sets (bits_of bits.old) at (zero_bits part.now) }
{
    for k in 0..part.len() {
        set_bit(bits, at + k, zero_bit(part[k]));
    }
}

// Sets the bits from byte j on so, whole bytes at once.
fn mark_bytes(part: &[u64], bits: &mut [u8], j: usize)
    requires { (length part.now % 8 ≡ 0) × (8 * j + length part.now ≤ 8 * length bits.old) }
    ensures { bits_of bits.new ≡ sets (bits_of bits.old) (8 * j) (zero_bits part.now) }
{
    wiring::mark_zeros(part, &mut bits[j..]);
}

// Sets the bits from `at` on so: one by one up to the first whole byte, and after the last.
fn mark_from(part: &[u64], bits: &mut [u8], at: usize)
    requires { (at + length part.now ≤ 8 * length bits.old) × (at + length part.now < 2 ^ 64) }
    ensures { bits_of bits.new ≡ sets (bits_of bits.old) at (zero_bits part.now) }
{
    let k = (8 - at % 8) % 8;
    if part.len() < k {
        mark_each(part, bits, at);
        return;
    }
    let m = k + (part.len() - k) / 8 * 8;
    let j = (at + k) / 8;
    mark_each(&part[..k], bits, at);
    mark_bytes(&part[k..m], bits, j);
    mark_each(&part[m..], bits, at + m);
}

// Writes the table of phy p of expander i from word `at` to word `to`, and its bits; the answer is how many words changed.
fn renew_table(
    d: &PreparedRows,
    order: &[u8],
    i: ExpanderNumber,
    p: PhyId,
    words: &mut [u64],
    bits: &mut [u8],
    at: usize,
    to: usize,
) -> usize
    requires { FilledFrom (domain_in d.now.levels.attached.rows.now) i.0 p.0 order.now (to - at)
        × ((at ≤ to) × ((to ≤ length words.old) × (to ≤ 8 * length bits.old))) }
    ensures { (words.new ≡ sets words.old at (filled_to (to - at) (own_words_of_order (domain_in d.now.levels.attached.rows.now) i.0 p.0)))
        × ((bits_of bits.new ≡ sets (bits_of bits.old) at (zero_bits (filled_to (to - at) (own_words_of_order (domain_in d.now.levels.attached.rows.now) i.0 p.0))))
        × ((result ≡ changed words.old words.new) × (result ≤ to - at))) }
{
    let n = table_filling::fill_table(d, order, i, p, &mut words[at..to]);
    mark_from(&words[at..to], bits, at);
    n
}

// Writes a table afresh where expander e is in its order; elsewhere it is passed over. The answer is the tally after it.
fn refill_table(
    d: &PreparedRows,
    order: &[u8],
    e: ExpanderNumber,
    i: ExpanderNumber,
    p: PhyId,
    words: &mut [u64],
    bits: &mut [u8],
    s: Tally,
) -> Tally
    requires { RefillReady (domain_in d.now.levels.attached.rows.now) order.now i.0 p.0 s words.old bits.old }
    ensures { Rewritten (domain_in d.now.levels.attached.rows.now) e.0 (place i.0 p.0 ∷ []) s result
        (entries words.old bits.old) (entries words.new bits.new) × TallyBounds 1 s result }
{
    let to = s.at + table_sizes::size_at(d.levels.attached.rows, i, p) as usize;
    if !downstream::has_number(order, e) {
        return Tally {
            at: to,
            tables: s.tables,
            words: s.words,
        };
    }
    let n = renew_table(d, order, i, p, words, bits, s.at, to);
    Tally {
        at: to,
        tables: s.tables + 1,
        words: s.words + n,
    }
}

// Whether it is a table phy attached to an expander: no other has levels.
fn is_table_link(f: Phy) -> bool
    ensures { result ≡ table_link f }
{
    if wiring::phy_attribute(f) != 2 {
        return false;
    }
    wiring::phy_type(f) >= 2
}

// Passes over the table of f, phy p of expander i, which has no levels.
fn pass_over(rows: &[u64], i: ExpanderNumber, p: PhyId, f: Phy, s: Tally) -> Tally
    requires { (f ≡ phy_at (domain_in rows.now) i.0 p.0) × (s.at + size (domain_in rows.now) (place i.0 p.0) < 2 ^ 64) }
    ensures { Passed (domain_in rows.now) (place i.0 p.0) s result }
{
    Tally {
        at: s.at + table_sizes::size_of(rows, i, f) as usize,
        tables: s.tables,
        words: s.words,
    }
}

// Goes so through the tables of expander i. `order` is room for the levels of one phy.
fn refill_at(
    d: &PreparedRows,
    order: &mut [u8],
    e: ExpanderNumber,
    i: ExpanderNumber,
    words: &mut [u64],
    bits: &mut [u8],
    s: Tally,
) -> Tally
    requires { RefillsReady (domain_in d.now.levels.attached.rows.now) order.old i.0 s words.old bits.old }
    ensures { Rewritten (domain_in d.now.levels.attached.rows.now) e.0 (places_at (domain_in d.now.levels.attached.rows.now) i.0) s result
        (entries words.old bits.old) (entries words.new bits.new) × TallyBounds 128 s result }
{
    let rows = d.levels.attached.rows;
    let n = wiring::phy_count(rows, i);
    let mut t = s;
    let mut kept = KeptOrder {
        phy: PhyId(255),
        fields: Phy::Vacant(0),
        count: 0,
    };
    for p in 0..n {
        let f = wiring::phy_in_row(rows, i, PhyId(p));
        if is_table_link(f) {
            kept = order::order_for(&d.levels, kept, i, PhyId(p), f, order);
            t = refill_table(d, &order[..kept.count], e, i, PhyId(p), words, bits, t);
        } else {
            t = pass_over(rows, i, PhyId(p), f, t);
        }
    }
    t
}

// Writes afresh the tables with expander e in the order of their phy, words and bits, and counts them and the words changed.
pub(crate) fn refill_all(
    d: &PreparedRows,
    order: &mut [u8],
    e: ExpanderNumber,
    words: &mut [u64],
    bits: &mut [u8],
) -> Moved
    requires { RefillAllReady (domain_in d.now.levels.attached.rows.now) order.old (room_of (entries words.old bits.old)) }
    ensures { RefilledAll (domain_in d.now.levels.attached.rows.now) e.0 result (entries words.old bits.old) (entries words.new bits.new) }
{
    let n = wiring::expander_count(d.levels.attached.rows);
    let mut s = Tally {
        at: 0,
        tables: 0,
        words: 0,
    };
    for i in 0..n {
        s = refill_at(d, order, e, ExpanderNumber(i), words, bits, s);
    }
    Moved {
        table_count: s.tables as u32,
        word_count: s.words as u32,
    }
}
