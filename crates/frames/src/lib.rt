// SMP frames, each by itself: REPORT GENERAL and DISCOVER responses are read, CONFIGURE ROUTE INFORMATION requests are
// written and read. Also bits packed into bytes, of which disable bits are made.
#![tactic(auto)]

mod bits;
mod bytes;
pub mod codes;
mod configure_route;
mod discovery;
mod refusals;
mod report_general;
mod sizes;

pub use bits::{bit_at, bytes_for, mark_zeros, with_bit};
pub use bytes::{address_at, byte_at, put_address};
pub use configure_route::{put_route, read_route, route_refusal, write_route};
pub use discovery::read_discover;
pub use refusals::{refusal_at, refused};
pub use report_general::{read_general, read_general_sas2};
pub use sizes::frame_size;

// How many bytes a short REPORT GENERAL response has. The definitions have the sizes of responses in specs/Sizes.
pub const GENERAL_BYTES: usize = 28;

// How many bytes a long REPORT GENERAL response has.
pub const LONG_GENERAL_BYTES: usize = 68;

// How many bytes a short DISCOVER response has.
pub const DISCOVER_BYTES: usize = 52;

// How many bytes a long DISCOVER response has.
pub const LONG_DISCOVER_BYTES: usize = 64;

// How many bytes a CONFIGURE ROUTE INFORMATION request has.
pub const ROUTE_BYTES: usize = 40;

// A phy identifier: which phy of an expander.
#[derive(Clone, Copy, PartialEq, Eq)]
pub struct PhyId(pub u8);

// A route index: which entry of a phy's routing table.
#[derive(Clone, Copy, PartialEq, Eq)]
pub struct RouteIndex(pub u16);

// An expander number: which expander of a domain file, from 0.
#[derive(Clone, Copy, PartialEq, Eq)]
pub struct ExpanderNumber(pub u8);

// A refusal: "number, expander, phy".
// The number is a byte and no enum: C reads it, and `RefusesExactly` and `PartsBack` speak of any number.
#[derive(Clone, Copy)]
pub struct Refusal {
    pub number: u8,
    pub expander: ExpanderNumber,
    pub phy: PhyId,
}

// Which response a frame is.
#[derive(Clone, Copy)]
pub enum Response {
    ReportGeneral,
    Discover,
}

// The fields of a REPORT GENERAL response: how many route indexes each phy has (R), how many phys
// there are, and the configurable bit.
#[derive(Clone, Copy)]
pub struct General {
    pub route_indexes: u16,
    pub phys: u8,
    pub configurable: u8,
}

// The fields that the SAS-2 reader shows of a long REPORT GENERAL response: TABLE TO TABLE SUPPORTED and
// CONFIGURES OTHERS, a bit each.
#[derive(Clone, Copy)]
pub struct LongGeneral {
    pub table_to_table: u8,
    pub configures_others: u8,
}

// What the SAS-2 reader shows of a REPORT GENERAL response: a short frame has no more fields.
#[derive(Clone, Copy)]
pub enum GeneralSas2 {
    Short(General),
    Long(General, LongGeneral),
}

// The fields of a DISCOVER response: phy identifier, attached device type, own address, attached
// address, attached phy identifier, routing attribute.
// Type and attribute are codes and no enums: a frame may have reserved ones, and `discover_fields` has the number that stands there.
#[derive(Clone, Copy)]
pub struct Discover {
    pub identifier: PhyId,
    pub device_type: u8,
    pub own_address: u64,
    pub attached_address: u64,
    pub attached_phy: PhyId,
    pub attribute: u8,
}

// What a DISCOVER response tells of its phy. A vacant phy is reported with its non-zero function result.
#[derive(Clone, Copy)]
pub enum Discovered {
    Vacant(u8),
    Fields(Discover),
}

// The fields of a CONFIGURE ROUTE INFORMATION request: REQUEST LENGTH (00h or 09h), phy, route index, the entry's
// address, and whether the entry is disabled.
#[derive(Clone, Copy)]
pub struct Route {
    pub length: u8,
    pub phy: PhyId,
    pub index: RouteIndex,
    pub address: u64,
    pub disabled: bool,
}
