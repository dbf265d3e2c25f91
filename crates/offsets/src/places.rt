// Where the frames of a file that was read stand: each is short or long by its byte 3.
ghost use Rattle.std.specs.Prelude.{◌≡◌, ◌+◌, ◌*◌, ◌≤◌, ◌<◌};
ghost use Rattle.frames.specs.declared.Response.TheVariants.{Discover, ReportGeneral};
ghost use Rattle.frames.specs.Sizes.{long_size};
ghost use Rattle.offsets.specs.Offsets.{size_from, phys_after, phys_from, expander_offset, phy_offset, longest_unit};

use wiring::{ExpanderNumber, PhyId};

// The size of the DISCOVER response at `at`.
fn discover_size(file: &[u8], at: usize) -> usize
    requires { at < 5000000 }
    ensures { (result ≡ size_from Discover file.now at) × (result ≤ long_size Discover) }
{
    if wiring::byte_at(file, at + 3) == 0 {
        return frames::DISCOVER_BYTES;
    }
    frames::LONG_DISCOVER_BYTES
}

// The place of the phys of the expander at `at`.
fn phys_from(file: &[u8], at: usize) -> usize
    requires { at < 5000000 }
    ensures { (result ≡ phys_from file.now at) × (result ≤ at + (8 + long_size ReportGeneral)) }
{
    if wiring::byte_at(file, at + 8 + 3) == 0 {
        return at + 8 + frames::GENERAL_BYTES;
    }
    at + 8 + frames::LONG_GENERAL_BYTES
}

// The place after n phys, the first of which stands at `at`.
fn phys_after(file: &[u8], n: u64, at: usize) -> usize
    requires { (at < 4500000) × (n < 256) }
    ensures { (result ≡ phys_after file.now n at) × (result ≤ at + long_size Discover * n) }
{
    let mut next = at;
    for p in 0..n {
        next += discover_size(file, next);
    }
    next
}

// The place of expander i.
pub fn expander_offset(file: &[u8], i: ExpanderNumber) -> usize
    ensures { (result ≡ expander_offset file.now i.0) × (result ≤ 2 + longest_unit 255 * i.0) }
{
    let mut at: usize = 2;
    for k in 0..i.0 {
        let n = wiring::byte_at(file, at + 17);
        at = phys_after(file, n, phys_from(file, at));
    }
    at
}

// The place of the frame of phy p of expander i.
pub fn phy_offset(file: &[u8], i: ExpanderNumber, p: PhyId) -> usize
    ensures { result ≡ phy_offset file.now i.0 p.0 }
{
    let at = expander_offset(file, i);
    phys_after(file, p.0 as u64, phys_from(file, at))
}
