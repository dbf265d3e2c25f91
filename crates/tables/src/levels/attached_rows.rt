// A domain in rows, with which expander each of its phys is attached to.
ghost use Rattle.files.specs.Rows.{domain_in};
ghost use Rattle.tables.specs.lists.PreparedLists.{AttachedExpandersKnown};

// Rows; `first`, which tells the expander of every phy that is attached to one; and `low`, in which a phy's entry may name a
// lower phy of its expander with its address. Of `low` nothing is promised: so both serve also after a drive was plugged or
// pulled.
#[derive(Clone, Copy)]
pub(crate) struct AttachedRows<'a> {
    pub(crate) rows: &'a [u64],
    pub(crate) first: &'a [u16],
    pub(crate) low: &'a [u8],
    ghost attached: { AttachedExpandersKnown (domain_in rows.now) first.now },
}
