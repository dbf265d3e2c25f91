// A domain in rows, with all that cause 14 is tested by.
ghost use Rattle.files.specs.Rows.{domain_in};
ghost use Rattle.tables.specs.lists.PreparedLists.{OwnListCounts};

use crate::levels::downstream_rows::DownstreamRows;

// Rows, the expanders downstream of each, and the length of each one's own list.
#[derive(Clone, Copy)]
pub(crate) struct CountedRows<'a, 'b> {
    pub(crate) levels: DownstreamRows<'a>,
    pub(crate) counts: &'b [u8],
    ghost counted: { OwnListCounts (domain_in levels.attached.rows.now) counts.now },
}
