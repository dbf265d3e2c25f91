// After a drive was plugged or pulled at one expander of an accepted domain, over rows in which its phy is replaced: the causes
// that can hold, which are 8 of its address, 9 at its expander and 14, and the own list of its expander.
ghost use Rattle.std.specs.Prelude.{◌≡◌, ◌*◌, ◌≤◌, ◌<◌, length, ltb};
ghost use Rattle.files.specs.Lists.{any};
ghost use Rattle.files.specs.Domain.{expander_at, bears, number_of};
ghost use Rattle.wiring.specs.phys.PhyCauses.{clash, clashing};
ghost use Rattle.wiring.specs.phys.Checks.{check_answer, FirstOfAll, FirstOfExpander};
ghost use Rattle.files.specs.Rows.{domain_in};
ghost use Rattle.tables.specs.lists.GrowingLists.{Grown};
ghost use Rattle.tables.specs.lists.OwnLists.{lower, owns, own_words};
ghost use Rattle.tables.specs.lists.PreparedLists.{OwnListsHeld, OwnListCounts, own_overlong, OrderRoom};
ghost use Rattle.tables.specs.events.ReplugCall.{claimed_with, retested, OwnListsHeldBut, RetestReady};
ghost use Rattle.tables.specs.events.EndDeviceTests.{is_end, ends_at, is_found};

use crate::lists::counted_rows::CountedRows;
use crate::lists::prepared_rows::PreparedRows;
use crate::lists::{overlong, own_lists};
use wiring::{ExpanderNumber, Phy, PhyId, Refusal};

// Whether an expander has address s.
fn is_expander(rows: &[u64], s: u64) -> bool
    ensures { result ≡ ltb (number_of (domain_in rows.now) s) (length (domain_in rows.now)) }
{
    wiring::number_of(rows, s) < wiring::expander_count(rows)
}

// Whether it is attached to an end device with address s.
fn is_end(s: u64, f: Phy) -> bool
    ensures { result ≡ is_end s f }
{
    if wiring::phy_type(f) != 1 {
        return false;
    }
    wiring::phy_address(f) == s
}

// The lowest phy of expander i that is attached to an end device with address s, as a refusal with number 8.
fn first_end(rows: &[u64], i: ExpanderNumber, s: u64) -> Result<(), Refusal>
    ensures { FirstOfExpander (domain_in rows.now) result 8 (ends_at s) i.0 }
{
    let n = wiring::phy_count(rows, i);
    for p in 0..n {
        let f = wiring::phy_in_row(rows, i, PhyId(p));
        if is_end(s, f) {
            return Err(wiring::refusal_at(8, i, PhyId(p)));
        }
    }
    Ok(())
}

// Whether the search found a phy.
fn is_found(answer: Result<(), Refusal>) -> bool
    ensures { result ≡ is_found answer }
{
    match answer {
        Err(_) => true,
        Ok(()) => false,
    }
}

// Cause 8 of address s alone: the lowest phy that is attached to an end device with it, where an expander has
// it (`taken`), or an end device at an earlier expander.
pub(crate) fn first_claim(rows: &[u64], s: u64) -> Result<(), Refusal>
    ensures { FirstOfAll (domain_in rows.now) result 8 (claimed_with s) }
{
    let n = wiring::expander_count(rows);
    let mut taken = is_expander(rows, s);
    for i in 0..n {
        let end = first_end(rows, ExpanderNumber(i), s);
        let found = is_found(end);
        if taken & found {
            return end;
        }
        taken = taken | found;
    }
    Ok(())
}

// Whether two phys of one expander clash: both attached, with the same address and other attributes, or both
// subtractive with other addresses.
fn is_clash(f: Phy, g: Phy) -> bool
    ensures { result ≡ clash f g }
{
    if wiring::phy_type(f) == 0 {
        return false;
    }
    if wiring::phy_type(g) == 0 {
        return false;
    }
    if wiring::phy_address(f) == wiring::phy_address(g) {
        return wiring::phy_attribute(f) != wiring::phy_attribute(g);
    }
    if wiring::phy_attribute(f) != 1 {
        return false;
    }
    wiring::phy_attribute(g) == 1
}

// Whether cause 9 holds at phy p of expander i: it clashes with a lower one.
fn has_clash(rows: &[u64], i: ExpanderNumber, p: PhyId) -> bool
    requires { p.0 < length (expander_at (domain_in rows.now) i.0).phys }
    ensures { result ≡ clashing (domain_in rows.now) i.0 p.0 }
{
    let f = wiring::phy_in_row(rows, i, p);
    if wiring::phy_type(f) == 0 {
        return false;
    }
    for q in 0..p.0 {
        let g = wiring::phy_in_row(rows, i, PhyId(q));
        if is_clash(f, g) {
            return true;
        }
    }
    false
}

// Cause 9 at expander e alone: its lowest phy that clashes with a lower one.
pub(crate) fn first_clash(rows: &[u64], e: ExpanderNumber) -> Result<(), Refusal>
    ensures { FirstOfExpander (domain_in rows.now) result 9 clashing e.0 }
{
    let n = wiring::phy_count(rows, e);
    for p in 0..n {
        if has_clash(rows, e, PhyId(p)) {
            return Err(wiring::refusal_at(9, e, PhyId(p)));
        }
    }
    Ok(())
}

// Whether an attached phy of expander i below p bears address s.
fn is_borne(rows: &[u64], i: ExpanderNumber, p: PhyId, s: u64) -> bool
    requires { p.0 < length (expander_at (domain_in rows.now) i.0).phys }
    ensures { result ≡ any (bears s) (lower (expander_at (domain_in rows.now) i.0).phys p.0) }
{
    for q in (0..p.0).rev() {
        if own_lists::phy_bears(s, wiring::phy_in_row(rows, i, PhyId(q))) {
            return true;
        }
    }
    false
}

// Whether f, phy p of expander i, gives its word to the expander's own list.
fn gives_word(rows: &[u64], i: ExpanderNumber, p: PhyId, f: Phy) -> bool
    requires { p.0 < length (expander_at (domain_in rows.now) i.0).phys }
    ensures { result ≡ owns (lower (expander_at (domain_in rows.now) i.0).phys p.0) f }
{
    let attribute = wiring::phy_attribute(f);
    if attribute == 0 {
        return true;
    }
    if attribute != 2 {
        return false;
    }
    if wiring::phy_type(f) == 0 {
        return false;
    }
    !is_borne(rows, i, p, wiring::phy_address(f))
}

// Writes the own list of expander i, and yields its length: at most 128.
fn collect_words(rows: &[u64], i: ExpanderNumber, part: &mut [u64]) -> usize
    requires { 128 ≤ length part.old }
    ensures { Grown part.old part.new result (own_words (domain_in rows.now) i.0) }
{
    let n = wiring::phy_count(rows, i);
    let mut m: usize = 0;
    for p in 0..n {
        let f = wiring::phy_in_row(rows, i, PhyId(p));
        let mine = gives_word(rows, i, PhyId(p), f);
        m = own_lists::put_word(part, m, mine, f);
    }
    m
}

// Writes the own list of expander e with its length before it, where the others stand.
pub(crate) fn renew_own(rows: &[u64], e: ExpanderNumber, lists: &mut [u64])
    requires { OwnListsHeldBut (domain_in rows.now) e.0 lists.old }
    ensures { OwnListsHeld (domain_in rows.now) lists.new }
{
    if e.0 >= wiring::expander_count(rows) {
        return;
    }
    let a = crate::OWN_LIST_WORDS * (e.0 as usize);
    let m = collect_words(rows, e, &mut lists[a + 1..a + crate::OWN_LIST_WORDS]);
    lists[a] = m as u64;
}

// Writes the length of each expander's own list.
fn put_lengths(d: &PreparedRows, counts: &mut [u8])
    requires { length (domain_in d.now.levels.attached.rows.now) ≤ length counts.old }
    ensures { OwnListCounts (domain_in d.now.levels.attached.rows.now) counts.new }
{
    let n = wiring::expander_count(d.levels.attached.rows);
    for i in 0..n {
        counts[i as usize] = d.lists[crate::OWN_LIST_WORDS * (i as usize)] as u8;
    }
}

// Cause 14 by own lists, with room for the levels of one phy.
pub(crate) fn first_overlong_by(d: &PreparedRows, order: &mut [u8]) -> Result<(), Refusal>
    requires { OrderRoom (domain_in d.now.levels.attached.rows.now) order.old }
    ensures { FirstOfAll (domain_in d.now.levels.attached.rows.now) result 14 own_overlong }
{
    let mut counts = [0u8; 64];
    put_lengths(d, &mut counts[..]);
    let levels = d.levels;
    let counted = CountedRows {
        levels: levels,
        counts: &counts[..],
    };
    overlong::overlong_each(&counted, order)
}

// Cause 14 of a domain whose lists have at most R words as long as expander e's own list has at most n.
fn overlong_past(
    d: &PreparedRows,
    order: &mut [u8],
    e: ExpanderNumber,
    n: usize,
) -> Result<(), Refusal>
    requires { RetestReady (domain_in d.now.levels.attached.rows.now) e.0 n order.old }
    ensures { FirstOfAll (domain_in d.now.levels.attached.rows.now) result 14 own_overlong }
{
    if own_lists::own_length(d.levels.attached.rows, d.lists, e) <= n {
        return Ok(());
    }
    first_overlong_by(d, order)
}

// The causes that can hold where one phy of expander e of an accepted domain has been given address s: 8 of s, 9 at
// e, and 14, in order. Before, the own list of e had n words.
pub(crate) fn retest(
    d: &PreparedRows,
    order: &mut [u8],
    e: ExpanderNumber,
    s: u64,
    n: usize,
) -> Result<(), Refusal>
    requires { RetestReady (domain_in d.now.levels.attached.rows.now) e.0 n order.old }
    ensures { check_answer (domain_in d.now.levels.attached.rows.now) result ≡ retested e.0 s (domain_in d.now.levels.attached.rows.now) }
{
    first_claim(d.levels.attached.rows, s)?;
    first_clash(d.levels.attached.rows, e)?;
    overlong_past(d, order, e, n)
}
