// Writes the file of a domain in rows: short frames, every ignored byte and bit zero.
ghost use Rattle.std.specs.Prelude.{◌≡◌, ◌++◌, ◌+◌, ◌*◌, ◌≤◌, ◌<◌, length, drop};
ghost use Rattle.std.proofs.lemmas.List.Edits.{sets};
ghost use Rattle.frames.specs.Sizes.{short_size};
ghost use Rattle.frames.specs.declared.Response.TheVariants.{Discover as DiscoverResponse};
ghost use Rattle.files.specs.Domain.{expander_at};
ghost use Rattle.files.specs.Rows.{domain_in};
ghost use Rattle.cards.specs.FileOf.{discover_of, phy_frame, phys_frames, unit_head, units_of, file_of, head_bytes};
ghost use Rattle.cards.specs.Calls.{file_for, MadeDone};

use crate::short_frames;
use wiring::{Discover, ExpanderNumber, General, Phy, PhyFields, PhyId, Refusal};

// How many bytes stand before the frames of an expander's phys: its address and a short REPORT GENERAL response.
const UNIT_HEAD: usize = 8 + frames::GENERAL_BYTES;

// The fields of the DISCOVER response of phy p, which is not vacant, of the expander with address `own_address`.
fn discover_of(own_address: u64, p: PhyId, x: PhyFields) -> Discover
    ensures { result ≡ discover_of own_address p.0 x }
{
    let attached_phy = x.attached_phy;
    Discover {
        identifier: p,
        device_type: x.device_type,
        own_address: own_address,
        attached_address: x.address,
        attached_phy: attached_phy,
        attribute: x.attribute,
    }
}

// Writes the DISCOVER response of phy p of the expander with address `own_address` into 52 bytes.
fn put_phy(frame: &mut [u8], own_address: u64, p: PhyId, f: Phy)
    requires { length frame.old ≡ short_size DiscoverResponse }
    ensures { frame.new ≡ phy_frame own_address p.0 f }
{
    match f {
        Phy::Vacant(result) => {
            short_frames::put_vacant(frame, result);
        }
        Phy::Present(x) => {
            short_frames::put_discover(frame, discover_of(own_address, p, x));
        }
    }
}

// Writes expander i's address and its REPORT GENERAL response from byte `to` on.
fn put_head(file: &mut [u8], to: usize, rows: &[u64], i: ExpanderNumber)
    requires { (to < 1000000) × (to + head_bytes ≤ length file.old) }
    ensures { file.new ≡ sets file.old to (unit_head (expander_at (domain_in rows.now) i.0)) }
{
    let g = General {
        route_indexes: wiring::route_indexes(rows, i),
        phys: wiring::phy_count(rows, i),
        configurable: wiring::configurable_bit(rows, i),
    };
    let m = to + 8;
    let e = to + UNIT_HEAD;
    wiring::put_address(&mut file[to..m], wiring::expander_address(rows, i));
    short_frames::put_general(&mut file[m..e], g);
}

// Writes the DISCOVER responses of expander i's phys from byte `to` on.
fn put_frames(file: &mut [u8], to: usize, rows: &[u64], i: ExpanderNumber)
    requires { (to < 1000000) × (to + short_size DiscoverResponse * length (expander_at (domain_in rows.now) i.0).phys ≤ length file.old) }
    ensures { file.new ≡ sets file.old to (phys_frames (expander_at (domain_in rows.now) i.0).address 0 (expander_at (domain_in rows.now) i.0).phys) }
{
    let own_address = wiring::expander_address(rows, i);
    let n = wiring::phy_count(rows, i);
    for p in 0..n {
        let f = wiring::phy_at(rows, i, PhyId(p));
        let a = to + frames::DISCOVER_BYTES * (p as usize);
        let e = a + frames::DISCOVER_BYTES;
        put_phy(&mut file[a..e], own_address, PhyId(p), f);
    }
}

// Writes the units of all expanders from byte 2 on.
fn put_units(file: &mut [u8], rows: &[u64])
    requires { 2 + length (units_of (domain_in rows.now)) ≤ length file.old }
    ensures { file.new ≡ sets file.old 2 (units_of (domain_in rows.now)) }
{
    let n = wiring::expander_count(rows);
    let mut to: usize = 2;
    for i in 0..n {
        let x = ExpanderNumber(i);
        put_head(file, to, rows, x);
        put_frames(file, to + UNIT_HEAD, rows, x);
        to += UNIT_HEAD + frames::DISCOVER_BYTES * (wiring::phy_count(rows, x) as usize);
    }
}

// How many bytes the file of a domain has.
fn file_size(rows: &[u64]) -> usize
    ensures { (result ≡ length (file_of (domain_in rows.now))) × (result ≤ 430000) }
{
    let n = wiring::expander_count(rows);
    let mut size: usize = 2;
    for i in 0..n {
        size += UNIT_HEAD
            + frames::DISCOVER_BYTES * (wiring::phy_count(rows, ExpanderNumber(i)) as usize);
    }
    size
}

// Writes the file of a domain at the front of bytes that have room for it. The bytes after stay.
fn put_file(file: &mut [u8], rows: &[u64])
    requires { length (file_of (domain_in rows.now)) ≤ length file.old }
    ensures { file.new ≡ file_of (domain_in rows.now) ++ drop (length (file_of (domain_in rows.now))) file.old }
{
    file[0] = 0x10;
    file[1] = wiring::expander_count(rows);
    put_units(file, rows);
}

// The file of the domain in rows, where it fits: 16 otherwise. The bytes after it stay, and all of them where it is refused.
pub fn file_of_rows(rows: &[u64], file: &mut [u8]) -> Result<usize, Refusal>
    ensures { MadeDone (file_for (length file.old) (domain_in rows.now)) result file.old file.new }
{
    let size = file_size(rows);
    if file.len() < size {
        return Err(wiring::refused(16));
    }
    put_file(file, rows);
    Ok(size)
}
