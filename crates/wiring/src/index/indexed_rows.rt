// A domain in rows, with who has which address in it.
ghost use Rattle.files.specs.Rows.{domain_in};
ghost use Rattle.wiring.specs.index.AddressIndex.{Indexed};
ghost use Rattle.wiring.specs.index.IndexFacts.{facts};

// Rows; for each slot who has its address (`first`); and for each attached phy the lowest phy of its expander with its
// address (`low`).
#[derive(Clone, Copy)]
pub struct IndexedRows<'a> {
    pub rows: &'a [u64],
    pub first: &'a [u16],
    pub low: &'a [u8],
    pub ghost indexed: { Indexed (domain_in rows.now) first.now low.now } by { Prim.hlevel facts },
}
