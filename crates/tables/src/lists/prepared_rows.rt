// A domain in rows, with all that its tables are filled from.
ghost use Rattle.files.specs.Rows.{domain_in};
ghost use Rattle.tables.specs.lists.PreparedLists.{OwnListsHeld};

use crate::levels::downstream_rows::DownstreamRows;

// Rows, the expanders downstream of each, and the own list of each.
#[derive(Clone, Copy)]
pub(crate) struct PreparedRows<'a> {
    pub(crate) levels: DownstreamRows<'a>,
    pub(crate) lists: &'a [u64],
    ghost owns: { OwnListsHeld (domain_in levels.attached.rows.now) lists.now },
}
