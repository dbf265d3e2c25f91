// Causes 11, 12 and 23 in order: loops, chains to expander 0, and long chains.
ghost use Rattle.std.specs.Prelude.{◌≡◌, length};
ghost use Rattle.files.specs.Rows.{domain_in};
ghost use Rattle.wiring.specs.graph.Graph.{loopfree};
ghost use Rattle.wiring.specs.graph.Neighbours.{neighbours};
ghost use Rattle.wiring.specs.graph.LinkCauses.{linked_domain, checked_domain, joined_domain};
ghost use Rattle.wiring.specs.phys.Checks.{check_answer, checked_in};
ghost use Rattle.wiring.specs.index.AddressIndex.{IndexLeft};

use crate::graph::neighbour_sets::NeighbourSets;
use crate::graph::rounds::Round;
use crate::graph::{chains, neighbours, rounds};
use crate::index::addresses;
use crate::index::indexed_rows::IndexedRows;
use crate::phys::causes;
use frames::{ExpanderNumber, PhyId, Refusal};

// Whether cause 11 does not hold: in as many rounds as there are expanders, each round takes away those
// that have at most one neighbour left and do not neighbour themselves, and nothing is left.
fn is_loopfree(sets: &NeighbourSets) -> bool
    ensures { result ≡ loopfree (length (domain_in sets.now.rows.now)) (neighbours (domain_in sets.now.rows.now)) }
{
    let n = files::expander_count(sets.rows);
    let all = rounds::all_of(sets.rows);
    rounds::run_rounds(sets, Round::Strip, n, all) == 0
}

// Cause 12: the lowest expander without a chain to expander 0.
fn check_joined(sets: &NeighbourSets) -> Result<(), Refusal>
    ensures { check_answer (domain_in sets.now.rows.now) result ≡ joined_domain (domain_in sets.now.rows.now) }
{
    let n = files::expander_count(sets.rows);
    if n == 0 {
        return Ok(());
    }
    let met = rounds::run_rounds(sets, Round::Reach, n, 1);
    for i in 0..n {
        if !rounds::has(met, ExpanderNumber(i)) {
            return Err(frames::refusal_at(12, ExpanderNumber(i), PhyId(0)));
        }
    }
    Ok(())
}

// Causes 11, 12 and 23 in order. A chain may have `chain` expanders.
fn check_links(d: &IndexedRows, chain: u8) -> Result<(), Refusal>
    ensures { check_answer (domain_in d.now.rows.now) result ≡ linked_domain chain (domain_in d.now.rows.now) }
{
    let mut words = [0u64; 64];
    neighbours::put_neighbours(d, &mut words[..]);
    let sets = NeighbourSets {
        rows: d.rows,
        words: &words[..],
    };
    if !is_loopfree(&sets) {
        return Err(frames::refused(11));
    }
    check_joined(&sets)?;
    chains::check_chains(&sets, chain)
}

// Causes 7 to 12 and 23 in order.
fn check_indexed(d: &IndexedRows, chain: u8) -> Result<(), Refusal>
    ensures { check_answer (domain_in d.now.rows.now) result ≡ checked_domain chain (domain_in d.now.rows.now) }
{
    causes::check_wiring(d)?;
    check_links(d, chain)
}

// Causes 7 to 12 and 23 in order, with entries for all slots in `first` and for all phys in `low`, which hold who has
// their addresses, whatever it answers. 16 where there is too little room for them.
pub fn check_domain(
    rows: &[u64],
    first: &mut [u16],
    low: &mut [u8],
    chain: u8,
) -> Result<(), Refusal>
    ensures result_value { check_answer (domain_in rows.now) result ≡ checked_in chain (length first.old) (length low.old) (domain_in rows.now) }
    ensures index_left { IndexLeft (domain_in rows.now) first.old low.old first.new low.new }
{
    let n = files::expander_count(rows) as usize;
    if first.len() < crate::EXPANDER_SLOTS + crate::PHY_SLOTS * n {
        return Err(frames::refused(16));
    }
    if low.len() < crate::PHY_SLOTS * n {
        return Err(frames::refused(16));
    }
    addresses::put_index(rows, first, low);
    let d = IndexedRows {
        rows: rows,
        first: &*first,
        low: &*low,
    };
    check_indexed(&d, chain)
}
