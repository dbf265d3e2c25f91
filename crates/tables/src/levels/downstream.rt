// The expanders downstream of each expander (at which the levels go on from it), each once: their count and
// then their numbers, one list every 66 bytes. A list has at most 65 numbers: at most 64 expanders, and
// their count for an address that no expander has.
ghost use Rattle.std.specs.Prelude.{◌≡◌, [], ◌∷◌, ◌*◌, ◌≤◌, length};
ghost use Rattle.files.specs.Lists.{is_in};
ghost use Rattle.files.specs.Domain.{phy_at};
ghost use Rattle.files.specs.Rows.{domain_in};
ghost use Rattle.tables.specs.levels.Levels.{downstream_of_phys};
ghost use Rattle.tables.specs.lists.GrowingLists.{Grown, Added};
ghost use Rattle.tables.specs.lists.PreparedLists.{downstream_once, DownstreamListsHeld, downstream_bytes, most_downstream};

use crate::levels::attached_rows::AttachedRows;
use crate::levels::wide_links;
use wiring::{ExpanderNumber, Phy, PhyId};

// Whether the number is among these. It goes through all of them, so that many can be compared at once.
pub(crate) fn has_number(l: &[u8], j: ExpanderNumber) -> bool
    ensures { result ≡ is_in j.0 l.now }
{
    let mut found = false;
    for i in 0..l.len() {
        if l[i] == j.0 {
            found = true;
        }
    }
    found
}

// Adds a number to the m numbers in `part`, unless it is among these or there is no room. The answer is how
// many stand there then.
fn add_number(part: &mut [u8], m: usize, j: ExpanderNumber) -> usize
    requires { m ≤ length part.old }
    ensures { Added part.old part.new m result (j.0 ∷ []) }
{
    if has_number(&part[..m], j) {
        return m;
    }
    if m >= part.len() {
        return m;
    }
    part[m] = j.0;
    m + 1
}

// Adds the expander attached to f, phy p of expander i, where the levels go on there.
fn add_phy(
    d: &AttachedRows,
    i: ExpanderNumber,
    p: PhyId,
    f: Phy,
    part: &mut [u8],
    m: usize,
) -> usize
    requires { (f ≡ phy_at (domain_in d.now.rows.now) i.0 p.0) × (m ≤ length part.old) }
    ensures { Added part.old part.new m result (downstream_of_phys (domain_in d.now.rows.now) (f ∷ [])) }
{
    if !wide_links::is_down(d, i, p, f) {
        return m;
    }
    add_number(part, m, wiring::attached_expander(d.rows, d.first, i, p))
}

// Writes the list of expander i, and yields its length. Of the phys of one link the lowest is enough.
fn collect_downstream(d: &AttachedRows, i: ExpanderNumber, part: &mut [u8]) -> usize
    requires { length part.old ≡ most_downstream }
    ensures { Grown part.old part.new result (downstream_once (domain_in d.now.rows.now) i.0) }
{
    let n = wiring::phy_count(d.rows, i);
    let mut m: usize = 0;
    for p in 0..n {
        let f = wiring::phy_in_row(d.rows, i, PhyId(p));
        let q = wide_links::lower_phy(d, i, PhyId(p), f);
        if q.0 >= p {
            m = add_phy(d, i, PhyId(p), f, part, m);
        }
    }
    m
}

// Writes the list of each expander.
pub(crate) fn put_downstream(d: &AttachedRows, downstream: &mut [u8])
    requires { downstream_bytes * length (domain_in d.now.rows.now) ≤ length downstream.old }
    ensures { DownstreamListsHeld (domain_in d.now.rows.now) downstream.new }
{
    let n = wiring::expander_count(d.rows);
    for i in 0..n {
        let a = crate::DOWNSTREAM_BYTES * (i as usize);
        let m = collect_downstream(
            d,
            ExpanderNumber(i),
            &mut downstream[a + 1..a + crate::DOWNSTREAM_BYTES],
        );
        downstream[a] = m as u8;
    }
}
