// Writes the joined file.
ghost use Rattle.std.specs.Prelude.{◌≡◌, ◌∷◌, ◌++◌, ◌+◌, ◌-◌, ◌≤◌, ◌<◌, length, drop};
ghost use Rattle.std.proofs.Math.Seq.{paste};
ghost use Rattle.frames.specs.Bytes.{byte};
ghost use Rattle.benches.specs.Bytes.{typed_two, cabled_at, joined_file};
ghost use Rattle.offsets.specs.Offsets.{Placed};

use wiring::{ExpanderNumber, PhyId};

// Copies all bytes of `from` to the place `at`.
fn copy(out: &mut [u8], at: usize, from: &[u8])
    requires { at + length from.now ≤ length out.old }
    ensures { out.new ≡ paste out.old at from.now (length from.now) }
{
    for k in 0..from.len() {
        out[at + k] = from[k];
    }
}

// Byte 12 of a DISCOVER response with type 2.
fn type_two(b: u8) -> u8
    ensures { result ≡ typed_two b }
{
    b / 128 * 128 + 32 + b % 16
}

// Writes the cable to phy q of the expander with address s into the DISCOVER response at `at`.
fn cable_at(out: &mut [u8], at: usize, s: u64, q: PhyId)
    requires { at + 33 ≤ length out.old }
    ensures { out.new ≡ cabled_at out.old at s q.0 }
{
    out[at + 12] = type_two(out[at + 12]);
    out[at + 32] = q.0;
    wiring::put_address(&mut out[at + 24..], s);
}

// Writes the two files one after the other, with the header of both.
fn put_both(out: &mut [u8], first: &[u8], second: &[u8])
    requires { ((2 ≤ length first.now) × (2 ≤ length second.now)) × ((length first.now + (length second.now - 2) ≤ length out.old) × (byte first.now 1 + byte second.now 1 < 256)) }
    ensures { out.new ≡ 0x10 ∷ ((byte first.now 1 + byte second.now 1) ∷ (drop 2 first.now ++ (drop 2 second.now ++ drop (length first.now + (length second.now - 2)) out.old))) }
{
    let n = first[1] + second[1];
    copy(out, 0, first);
    copy(out, first.len(), &second[2..]);
    out[0] = 0x10;
    out[1] = n;
}

// Writes the joined file; the bytes after it stay.
pub(crate) fn put_joined(
    out: &mut [u8],
    first: &[u8],
    i: ExpanderNumber,
    p: PhyId,
    second: &[u8],
    j: ExpanderNumber,
    q: PhyId,
)
    requires { (Placed first.now i.0 p.0 × Placed second.now j.0 q.0) × ((length first.now + (length second.now - 2) ≤ length out.old) × (byte first.now 1 + byte second.now 1 < 256)) }
    ensures { out.new ≡ joined_file first.now i.0 p.0 second.now j.0 q.0 ++ drop (length first.now + (length second.now - 2)) out.old }
{
    put_both(out, first, second);
    let s = frames::address_at(first, offsets::expander_offset(first, i));
    let t = frames::address_at(second, offsets::expander_offset(second, j));
    cable_at(out, offsets::phy_offset(first, i, p), t, q);
    cable_at(
        out,
        first.len() + (offsets::phy_offset(second, j, q) - 2),
        s,
        p,
    );
}
