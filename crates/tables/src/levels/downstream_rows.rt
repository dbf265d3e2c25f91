// A domain in rows, with the expanders downstream of each.
ghost use Rattle.files.specs.Rows.{domain_in};
ghost use Rattle.tables.specs.lists.PreparedLists.{DownstreamListsHeld};

use crate::levels::attached_rows::AttachedRows;

// Rows, and for each expander the list of those downstream of it.
#[derive(Clone, Copy)]
pub(crate) struct DownstreamRows<'a> {
    pub(crate) attached: AttachedRows<'a>,
    pub(crate) downstream: &'a [u8],
    ghost held: { DownstreamListsHeld (domain_in attached.rows.now) downstream.now },
}
