// The walk through a card: it stores the rows of its expanders, finds where they end, and tests them.
ghost use Rattle.std.specs.Prelude.{◌≡◌, cond, ◌&&◌, suc, ◌+◌, ◌*◌, ◌≤◌, ◌<◌, length, drop, eqb, leb};
ghost use Rattle.frames.specs.Bits.{field, bits_of};
ghost use Rattle.frames.specs.Refusals.{Result, unless, then, refusal};
ghost use Rattle.files.specs.Domain.{Domain};
ghost use Rattle.files.specs.File.{unit_tested};
ghost use Rattle.cards.specs.Card.{phys_on, unit_on, expander_on, domain_on};
ghost use Rattle.cards.specs.CardRead.{result_fine, phy_ranged};
ghost use Rattle.cards.specs.CardWalks.{after_check, PhysStored, RowStored, CardStored};
ghost use Rattle.files.specs.Rows.{row_words};

use crate::{CardWalk, PhysWalk, reading, sizes};
use wiring::{ExpanderNumber, ExpanderUnit, Phy, PhyId, Refusal, Setting};

// Whether a phy is not vacant with result zero.
fn is_fine(f: Phy) -> bool
    ensures { result ≡ result_fine f }
{
    match f {
        Phy::Vacant(result) => result != 0,
        Phy::Present(_) => true,
    }
}

// Whether 6 does not hold of a phy.
fn is_ranged(f: Phy) -> bool
    ensures { result ≡ phy_ranged f }
{
    match f {
        Phy::Vacant(_) => true,
        Phy::Present(x) => wiring::is_ranged(x),
    }
}

// How many phys up to phy p come before the first of which 6 holds, where `ranged` of those before p do.
fn count_ranged(f: Phy, ranged: u8, p: u8) -> u8
    requires { ranged ≤ 128 }
    ensures { result ≡ cond (eqb ranged p && phy_ranged f) (ranged + 1) ranged }
{
    if (ranged == p) & is_ranged(f) {
        return ranged + 1;
    }
    ranged
}

// Stores the words of the n phys that start at bit `at`.
fn put_phys(row: &mut [u64], card: &[u8], at: usize, n: u8) -> PhysWalk
    requires { ((n ≤ 128) × (at < 900000)) × (length row.old ≡ row_words) }
    ensures { PhysStored (phys_on n (drop at (bits_of card.now))) at result row.old row.new }
{
    let mut next = at;
    let mut fine = true;
    let mut ranged: u8 = 0;
    for p in 0..n {
        let f = reading::phy_from(card, next);
        let k = 2 + 2 * (p as usize);
        row[k] = wiring::phy_address(f);
        row[k + 1] = wiring::phy_word(f);
        fine = fine & is_fine(f);
        ranged = count_ranged(f, ranged, p);
        next += sizes::phy_size(f);
    }
    PhysWalk {
        next: next,
        fine: fine,
        ranged: ranged,
    }
}

// Writes the row of the expander that starts at bit `at`, whose fields are u.
fn put_row(row: &mut [u64], card: &[u8], u: ExpanderUnit, at: usize) -> PhysWalk
    requires { ((at < 800000) × (length row.old ≡ row_words)) × ((u ≡ unit_on (drop at (bits_of card.now))) × (u.phys ≤ 128)) }
    ensures { RowStored (expander_on (drop at (bits_of card.now))) at result row.new }
{
    let w = wiring::head_word(u);
    wiring::clear(row);
    row[0] = u.address;
    row[1] = w;
    put_phys(row, card, at + crate::HEAD_SIZE, u.phys)
}

// 3 and 4 of expander i, whose fields are u, then 6, where `ranged` of its phys come before the first of which it holds.
fn check_unit(
    most: Setting,
    used: &[u64],
    u: ExpanderUnit,
    i: ExpanderNumber,
    ranged: u8,
) -> Result<(), Refusal>
    ensures { (k : Result Domain) → after_check result k ≡ then (unit_tested most used.now i.0 u) (λ _. unless (leb u.phys ranged) (refusal 6 i.0 ranged) k) }
{
    wiring::test_unit(most, used, u, i, 0)?;
    if ranged < u.phys {
        return Err(wiring::refusal_at(6, i, PhyId(ranged)));
    }
    Ok(())
}

// Walks through the n expanders of a card.
pub(crate) fn walk_card(rows: &mut [u64], most: Setting, card: &[u8], n: u8) -> CardWalk
    requires { ((n ≡ suc (field 6 (drop 4 (bits_of card.now)))) × (n ≤ 64)) × (row_words * n ≤ length rows.old) }
    ensures { CardStored most (domain_on (bits_of card.now)) result rows.old rows.new }
{
    // the addresses of the expanders before expander i
    let mut used = [0u64; 64];
    let mut at: usize = 16;
    let mut fine = true;
    let mut check = Ok(());
    for i in 0..n {
        let k = i as usize;
        let a = files::ROW_WORDS * k;
        let e = a + files::ROW_WORDS;
        let u = reading::unit_from(card, at);
        let walk = put_row(&mut rows[a..e], card, u, at);
        let unit = check_unit(most, &used[..k], u, ExpanderNumber(i), walk.ranged);
        check = check.and(unit);
        used[k] = u.address;
        fine = fine & walk.fine;
        at = walk.next;
    }
    CardWalk {
        at: at,
        fine: fine,
        check: check,
    }
}
