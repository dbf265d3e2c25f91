// A drive plugged or pulled: what is tested again, and which tables are written afresh.
pub(crate) mod refilling;
pub(crate) mod replugging;
pub(crate) mod retesting;
