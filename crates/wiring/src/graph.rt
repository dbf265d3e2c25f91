// Expanders and cables as a graph, and causes 11, 12 and 23.
pub(crate) mod chains;
pub(crate) mod domain_checks;
pub(crate) mod neighbour_sets;
pub(crate) mod neighbours;
pub(crate) mod rounds;
