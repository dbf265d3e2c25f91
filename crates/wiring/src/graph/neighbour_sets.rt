// A domain in rows, with the set of each expander's neighbours.
ghost use Rattle.files.specs.Rows.{domain_in};
ghost use Rattle.wiring.specs.graph.Rounds.{NeighbourWordsHeld};

// Rows, and the neighbour word of each expander.
#[derive(Clone, Copy)]
pub(crate) struct NeighbourSets<'a> {
    pub(crate) rows: &'a [u64],
    pub(crate) words: &'a [u64],
    ghost held: { NeighbourWordsHeld (domain_in rows.now) words.now },
}
