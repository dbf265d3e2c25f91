// Who has an address.
pub(crate) mod addresses;
pub mod indexed_rows;
