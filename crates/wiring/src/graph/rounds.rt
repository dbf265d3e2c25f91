// Rounds over sets of expanders, held as 64-bit words with a bit for each expander, for causes 11, 12
// and 23.
ghost use Rattle.std.specs.Prelude.{◌≡◌, ◌<◌, length};
ghost use Rattle.files.specs.Lists.{up_to};
ghost use Rattle.files.specs.Rows.{domain_in};
ghost use Rattle.wiring.specs.graph.Neighbours.{set_of};
ghost use Rattle.wiring.specs.graph.Rounds.{has_bit, SetBelow, next_test, RoundsRun, round_set};
ghost use Rattle.wiring.specs.graph.RoundCauses.{round_cause};

use crate::graph::neighbour_sets::NeighbourSets;
use frames::ExpanderNumber;

// Whether expander j is in a set.
pub(crate) fn has(set: u64, j: ExpanderNumber) -> bool
    requires { j.0 < 64 }
    ensures { result ≡ has_bit set j.0 }
{
    (set >> j.0) % 2 == 1
}

// The set of all expanders.
pub(crate) fn all_of(rows: &[u64]) -> u64
    ensures { result ≡ set_of (up_to (length (domain_in rows.now))) }
{
    let n = files::expander_count(rows);
    if n == 0 {
        return 0;
    }
    0xffff_ffff_ffff_ffff >> (64 - n)
}

// What a round does with a set: it takes away those with few neighbours left in it (causes 11 and 23), or adds the neighbours of those in it (12).
#[derive(Clone, Copy)]
pub(crate) enum Round {
    Strip,
    Reach,
}

// Whether expander v belongs to the next set. `word` has its neighbours.
fn is_next(kind: Round, word: u64, set: u64, v: ExpanderNumber) -> bool
    requires { v.0 < 64 }
    ensures { result ≡ next_test (round_cause kind) word set v.0 }
{
    let near = u64::count_ones(set & word);
    match kind {
        Round::Strip => {
            if !has(set, v) {
                return false;
            }
            if has(word, v) {
                return true;
            }
            near >= 2
        }
        Round::Reach => {
            if has(set, v) {
                return true;
            }
            near >= 1
        }
    }
}

// The next set.
fn run_round(sets: &NeighbourSets, kind: Round, set: u64) -> u64
    requires { SetBelow (length (domain_in sets.now.rows.now)) set }
    ensures { result ≡ round_set (domain_in sets.now.rows.now) (round_cause kind) set }
{
    let n = files::expander_count(sets.rows);
    let mut next: u64 = 0;
    for v in 0..n {
        let at = v as usize;
        if is_next(kind, sets.words[at], set, ExpanderNumber(v)) {
            next = next | (1u64 << v);
        }
    }
    next
}

// The set after so many rounds.
pub(crate) fn run_rounds(sets: &NeighbourSets, kind: Round, count: u8, set: u64) -> u64
    requires { SetBelow (length (domain_in sets.now.rows.now)) set }
    ensures { RoundsRun (domain_in sets.now.rows.now) (round_cause kind) count set result }
{
    let mut next = set;
    for i in 0..count {
        next = run_round(sets, kind, next);
    }
    next
}
