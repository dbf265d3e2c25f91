// Tables in words with their disable bits.
pub(crate) mod all_tables;
pub(crate) mod table_filling;
pub(crate) mod table_sizes;
