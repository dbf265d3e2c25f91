// Text put into lent bytes from a place on. Each function yields the place after it.
ghost use Rattle.std.specs.Prelude.{[], ◌∷◌, ◌+◌, ◌≤◌, ◌<◌, length};
ghost use Rattle.io.specs.Counts.{IsPrefixLen};
ghost use Rattle.tables.specs.lists.GrowingLists.{WordsPut};
ghost use Rattle.listing.specs.Text.{decimal_of, hex_of, field_of, entry_of, line_of, refused_of, totals_of, too_long};

use tables::{ExpanderNumber, PhyId, Refusal, RouteIndex};

// One byte.
fn put_byte(out: &mut [u8], at: usize, b: u8) -> usize
    requires { at < length out.old }
    ensures { WordsPut out.old out.new at result (b ∷ []) }
{
    out[at] = b;
    at + 1
}

// All bytes of a text.
fn put_bytes(out: &mut [u8], at: usize, text: &[u8]) -> usize
    requires { at + length text.now ≤ length out.old }
    ensures { WordsPut out.old out.new at result text.now }
{
    let mut to = at;
    for i in 0..text.len() {
        to = put_byte(out, to, text[i]);
    }
    to
}

// A number in decimal digits.
fn put_decimal(out: &mut [u8], at: usize, n: u64) -> usize
    requires { at + 20 ≤ length out.old }
    ensures { WordsPut out.old out.new at result (decimal_of n) }
{
    let mut digits = [0u8; 20];
    let k = io::decimal(n, &mut digits);
    put_bytes(out, at, &digits[..k])
}

// A word in 16 hexadecimal digits.
fn put_hex(out: &mut [u8], at: usize, w: u64) -> usize
    requires { at + 16 ≤ length out.old }
    ensures { WordsPut out.old out.new at result (hex_of w) }
{
    let mut digits = [0u8; 16];
    let k = io::hex(w, 16, &mut digits);
    put_bytes(out, at, &digits[..k])
}

// A number and the byte after it.
fn put_field(out: &mut [u8], at: usize, n: u64, after: u8) -> usize
    requires { at + 21 ≤ length out.old }
    ensures { WordsPut out.old out.new at result (field_of n after) }
{
    let to = put_decimal(out, at, n);
    put_byte(out, to, after)
}

// An entry and a newline.
fn put_entry(out: &mut [u8], at: usize, w: u64) -> usize
    requires { at + 17 ≤ length out.old }
    ensures { WordsPut out.old out.new at result (entry_of w) }
{
    let to = put_hex(out, at, w);
    put_byte(out, to, b'\n')
}

// The line of one table word.
pub(crate) fn put_line(
    out: &mut [u8],
    at: usize,
    i: ExpanderNumber,
    p: PhyId,
    k: RouteIndex,
    w: u64,
) -> usize
    requires { at + 80 ≤ length out.old }
    ensures { WordsPut out.old out.new at result (line_of i.0 p.0 k.0 w) }
{
    let a = put_field(out, at, i.0 as u64, b' ');
    let b = put_field(out, a, p.0 as u64, b' ');
    let c = put_field(out, b, k.0 as u64, b' ');
    put_entry(out, c, w)
}

// The refusal line.
pub fn refused(out: &mut [u8; crate::LINE_BYTES], refusal: Refusal) -> usize
    ensures prefix_len { IsPrefixLen result out.new }
    ensures words_put { WordsPut out.old out.new 0 result
        (refused_of refusal.number refusal.expander.0 refusal.phy.0) }
{
    let word = [b'r', b'e', b'f', b'u', b's', b'e', b'd', b' '];
    let a = put_bytes(out, 0, &word);
    let b = put_field(out, a, refusal.number as u64, b' ');
    let c = put_field(out, b, refusal.expander.0 as u64, b' ');
    put_field(out, c, refusal.phy.0 as u64, b'\n')
}

// The line of totals.
pub fn totals(out: &mut [u8; crate::LINE_BYTES], tables: u64, entries: u64) -> usize
    ensures prefix_len { IsPrefixLen result out.new }
    ensures words_put { WordsPut out.old out.new 0 result (totals_of tables entries) }
{
    let first = [b't', b'a', b'b', b'l', b'e', b's', b' '];
    let second = [b'e', b'n', b't', b'r', b'i', b'e', b's', b' '];
    let a = put_bytes(out, 0, &first);
    let b = put_field(out, a, tables, b' ');
    let c = put_bytes(out, b, &second);
    put_field(out, c, entries, b'\n')
}

// The line for an input that is too long.
pub fn too_long(out: &mut [u8; crate::LINE_BYTES]) -> usize
    ensures prefix_len { IsPrefixLen result out.new }
    ensures words_put { WordsPut out.old out.new 0 result too_long }
{
    let line = [b't', b'o', b'o', b' ', b'l', b'o', b'n', b'g', b'\n'];
    put_bytes(out, 0, &line)
}
