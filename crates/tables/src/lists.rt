// Level lists, own lists, and cause 14.
pub(crate) mod counted_rows;
pub(crate) mod overlong;
pub(crate) mod own_lists;
pub(crate) mod prepared_rows;
