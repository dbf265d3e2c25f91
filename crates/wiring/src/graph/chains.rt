// Cause 23: a chain of more expanders than the setting allows.
ghost use Rattle.std.specs.Prelude.{◌≡◌};
ghost use Rattle.files.specs.Rows.{domain_in};
ghost use Rattle.wiring.specs.graph.LongChains.{unlong};
ghost use Rattle.wiring.specs.phys.Checks.{check_answer};

use crate::graph::neighbour_sets::NeighbourSets;
use crate::graph::rounds;
use crate::graph::rounds::Round;
use frames::Refusal;

// Cause 23, which never holds where a chain may have as many expanders as there are. Else, in half as many
// rounds as a chain may have expanders, each round takes away both ends of every chain, and none is left, or
// one where that number is odd.
pub(crate) fn check_chains(sets: &NeighbourSets, chain: u8) -> Result<(), Refusal>
    ensures { check_answer (domain_in sets.now.rows.now) result ≡ unlong chain (domain_in sets.now.rows.now) }
{
    let n = files::expander_count(sets.rows);
    if n <= chain {
        return Ok(());
    }
    let all = rounds::all_of(sets.rows);
    let left = rounds::run_rounds(sets, Round::Strip, chain / 2, all);
    if u64::count_ones(left) > (chain % 2) as u32 {
        return Err(frames::refused(23));
    }
    Ok(())
}
