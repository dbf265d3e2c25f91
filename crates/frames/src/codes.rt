// The codes of attached device type and routing attribute: each field is taken out of its byte by shift
// and mask, and its code named by a case for each code, in the order of the standard.
ghost use Rattle.std.specs.Prelude.{◌≡◌};
ghost use Rattle.frames.specs.Codes.{device_type, routing_attribute};

// The codes are numbers and no enums: reserved codes are read and written back as they stand (`discover_fields`).
// ATTACHED DEVICE TYPE (source document 002, table 6).
pub const NO_DEVICE: u8 = 0b000;

pub const END_DEVICE: u8 = 0b001;

pub const EDGE_EXPANDER: u8 = 0b010;

pub const FANOUT_EXPANDER: u8 = 0b011;

// ROUTING ATTRIBUTE (document 01).
pub const DIRECT: u8 = 0x0;

pub const SUBTRACTIVE: u8 = 0x1;

pub const TABLE: u8 = 0x2;

// Reserved codes: 4 to 7 of the types, 3 to 15 of the attributes.
pub const RESERVED_3: u8 = 3;

pub const RESERVED_4: u8 = 4;

pub const RESERVED_5: u8 = 5;

pub const RESERVED_6: u8 = 6;

pub const RESERVED_7: u8 = 7;

pub const RESERVED_8: u8 = 8;

pub const RESERVED_9: u8 = 9;

pub const RESERVED_10: u8 = 10;

pub const RESERVED_11: u8 = 11;

pub const RESERVED_12: u8 = 12;

pub const RESERVED_13: u8 = 13;

pub const RESERVED_14: u8 = 14;

pub const RESERVED_15: u8 = 15;

// The attached device type in bits 6 to 4 of byte 12. Three bits have no code above 111b.
pub(crate) fn device_type(byte: u8) -> u8
    ensures { result ≡ device_type byte }
{
    match (byte >> 4) & 7 {
        0b000 => NO_DEVICE,
        0b001 => END_DEVICE,
        0b010 => EDGE_EXPANDER,
        0b011 => FANOUT_EXPANDER,
        0b100 => RESERVED_4,
        0b101 => RESERVED_5,
        0b110 => RESERVED_6,
        0b111 | _ => RESERVED_7,
    }
}

// The routing attribute in bits 3 to 0 of byte 44. Four bits have no code above Fh.
pub(crate) fn routing_attribute(byte: u8) -> u8
    ensures { result ≡ routing_attribute byte }
{
    match (byte >> 0) & 15 {
        0x0 => DIRECT,
        0x1 => SUBTRACTIVE,
        0x2 => TABLE,
        0x3 => RESERVED_3,
        0x4 => RESERVED_4,
        0x5 => RESERVED_5,
        0x6 => RESERVED_6,
        0x7 => RESERVED_7,
        0x8 => RESERVED_8,
        0x9 => RESERVED_9,
        0xa => RESERVED_10,
        0xb => RESERVED_11,
        0xc => RESERVED_12,
        0xd => RESERVED_13,
        0xe => RESERVED_14,
        0xf | _ => RESERVED_15,
    }
}
