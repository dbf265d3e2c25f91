// The units of a domain file: an expander's address and REPORT GENERAL response, and a phy's DISCOVER
// response, each frame short or long.
ghost use Rattle.std.specs.Prelude.{◌≡◌, not, ◌&&◌, ◌+◌, length, eqb, leb};
ghost use Rattle.frames.specs.Refusals.{then};
ghost use Rattle.frames.specs.ReportGeneral.{general_read};
ghost use Rattle.frames.specs.declared.Response.TheVariants.{ReportGeneral, Discover as DiscoverResponse};
ghost use Rattle.frames.specs.Discovery.{discover_read};
ghost use Rattle.frames.specs.declared.Discovered.TheVariants.{Fields as fields};
ghost use Rattle.files.specs.Lists.{is_in};
ghost use Rattle.files.specs.Settings.{within};
ghost use Rattle.files.specs.File.{size_at, frame_at, fields_of, ranged, phy_of, phy_unit, unit_tested, expander_unit};
ghost use Rattle.files.specs.UnitAnswers.{ends_at};

use crate::{ExpanderUnit, Parsed, Phy, PhyFields, Setting};
use frames::{Discover, Discovered, ExpanderNumber, General, PhyId, Refusal, Response};

// Whether a file has n bytes from offset `at` on.
fn has_bytes(file: &[u8], at: usize, n: usize) -> bool
    ensures { result ≡ leb (at + n) (length file.now) }
{
    if file.len() < at {
        return false;
    }
    file.len() - at >= n
}

// The size of the frame at offset `from`, all of whose bytes are there: causes 1 and 2.
fn size_at(kind: Response, file: &[u8], from: usize) -> Result<usize, Refusal>
    ensures { result ≡ size_at kind file.now from }
{
    if file.len() < from {
        return Err(frames::refused(1));
    }
    let size = frames::frame_size(kind, &file[from..])?;
    if !has_bytes(file, from, size) {
        return Err(frames::refused(1));
    }
    Ok(size)
}

// Whether cause 5 does not hold: the phy identifier is p, and the own address is this expander's.
fn is_placed(f: Discover, own_address: u64, p: PhyId) -> bool
    ensures { result ≡ (eqb f.identifier.0 p.0 && eqb f.own_address own_address) }
{
    (f.identifier == p) & (f.own_address == own_address)
}

// Whether cause 6 does not hold of a phy's fields: type up to 3, attribute up to 2, and not attached with
// address zero.
pub fn is_ranged(f: PhyFields) -> bool
    ensures { result ≡ ranged f }
{
    (f.device_type <= 3) & ((f.attribute <= 2) & ((f.device_type == 0) | (f.address != 0)))
}

// The fields of a phy; where nothing is attached, with address 0 and phy 0.
fn fields_of(f: Discover) -> PhyFields
    ensures { result ≡ fields_of (eqb f.device_type 0) f }
{
    if f.device_type == 0 {
        return PhyFields {
            device_type: f.device_type,
            attribute: f.attribute,
            address: 0,
            attached_phy: PhyId(0),
        };
    }
    let attached_phy = f.attached_phy;
    PhyFields {
        device_type: f.device_type,
        attribute: f.attribute,
        address: f.attached_address,
        attached_phy: attached_phy,
    }
}

// Causes 5 and 6 of a phy that is not vacant; `next` is the place after its unit.
fn phy_of(
    f: Discover,
    own_address: u64,
    i: ExpanderNumber,
    p: PhyId,
    next: usize,
) -> Result<Parsed<Phy>, Refusal>
    ensures { result ≡ then (phy_of own_address i.0 p.0 (fields f)) (ends_at next) }
{
    if !is_placed(f, own_address, p) {
        return Err(frames::refusal_at(5, i, p));
    }
    let phy = fields_of(f);
    if !is_ranged(phy) {
        return Err(frames::refusal_at(6, i, p));
    }
    Ok(Parsed {
        value: Phy::Present(phy),
        next: next,
    })
}

// The DISCOVER response at offset `at`, and the place after it: causes 1 and 2.
fn discover_at(file: &[u8], at: usize) -> Result<Parsed<Discovered>, Refusal>
    ensures { result ≡ frame_at DiscoverResponse discover_read file.now at }
{
    let next = at + size_at(Response::Discover, file, at)?;
    let found = frames::read_discover(&file[at..next])?;
    Ok(Parsed {
        value: found,
        next: next,
    })
}

// The REPORT GENERAL response at offset `at`, and the place after it: causes 1 and 2.
fn general_at(file: &[u8], at: usize) -> Result<Parsed<General>, Refusal>
    ensures { result ≡ frame_at ReportGeneral general_read file.now at }
{
    let next = at + size_at(Response::ReportGeneral, file, at)?;
    let fields = frames::read_general(&file[at..next])?;
    Ok(Parsed {
        value: fields,
        next: next,
    })
}

// The unit of phy p of expander i, whose address is `own_address`, at offset `at`: causes 1, 2, 5 and 6.
pub(crate) fn phy_unit(
    file: &[u8],
    own_address: u64,
    i: ExpanderNumber,
    p: PhyId,
    at: usize,
) -> Result<Parsed<Phy>, Refusal>
    ensures { result ≡ phy_unit file.now own_address i.0 p.0 at }
{
    let frame = discover_at(file, at).map_err(|r| frames::refusal_at(r.number, i, p))?;
    match frame.value {
        Discovered::Vacant(result) => Ok(Parsed {
            value: Phy::Vacant(result),
            next: frame.next,
        }),
        Discovered::Fields(f) => phy_of(f, own_address, i, p, frame.next),
    }
}

// Whether the address is among those used.
pub(crate) fn is_in(used: &[u64], a: u64) -> bool
    ensures { result ≡ is_in a used.now }
{
    used.contains(&a)
}

// Whether the address is not zero and not among those used.
fn is_free(used: &[u64], own_address: u64) -> bool
    ensures { result ≡ (not (eqb own_address 0) && not (is_in own_address used.now)) }
{
    (own_address != 0) & !is_in(used, own_address)
}

// Whether n is 1 to `most`.
pub fn is_within(n: u8, most: u8) -> bool
    ensures { result ≡ within most n }
{
    (n >= 1) & (n <= most)
}

// Causes 3 and 4 of an expander's fields; `next` is the place after its unit.
pub fn test_unit(
    most: Setting,
    used: &[u64],
    u: ExpanderUnit,
    i: ExpanderNumber,
    next: usize,
) -> Result<Parsed<ExpanderUnit>, Refusal>
    ensures { result ≡ then (unit_tested most used.now i.0 u) (ends_at next) }
{
    if !is_within(u.phys, most.phys) {
        return Err(frames::refusal_at(3, i, PhyId(0)));
    }
    if !is_free(used, u.address) {
        return Err(frames::refusal_at(4, i, PhyId(0)));
    }
    Ok(Parsed {
        value: u,
        next: next,
    })
}

// The unit of expander i at offset `at`, where `used` are the addresses of the expanders before it:
// causes 1 to 4. Its frame starts after the eight bytes of the address.
pub(crate) fn expander_unit(
    most: Setting,
    file: &[u8],
    used: &[u64],
    i: ExpanderNumber,
    at: usize,
) -> Result<Parsed<ExpanderUnit>, Refusal>
    ensures { result ≡ expander_unit most file.now used.now i.0 at }
{
    if !has_bytes(file, at, 8) {
        return Err(frames::refusal_at(1, i, PhyId(0)));
    }
    let frame = general_at(file, at + 8).map_err(|r| frames::refusal_at(r.number, i, PhyId(0)))?;
    let g = frame.value;
    let u = ExpanderUnit {
        address: frames::address_at(file, at),
        route_indexes: g.route_indexes,
        phys: g.phys,
        configurable: g.configurable,
    };
    test_unit(most, used, u, i, frame.next)
}
