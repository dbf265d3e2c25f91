// Causes 7 to 10, which stand at a phy.
pub(crate) mod causes;
pub(crate) mod clashes;
