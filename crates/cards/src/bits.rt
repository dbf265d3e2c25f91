// Numbers of several bits, most significant bit first, at any place: read and put.
ghost use Rattle.std.specs.Prelude.{◌≡◌, ◌+◌, ◌-◌, ◌*◌, ◌%◌, ◌^◌, ◌≤◌, ◌<◌, drop, set};
ghost use Rattle.std.proofs.lemmas.List.Edits.{sets};
ghost use Rattle.frames.specs.Bits.{number_bits, field, bits_of};

// The eight bits from bit `at` on, by the byte that it stands in and the next one; bits past the end count as 0.
pub(crate) fn byte_from(s: &[u8], at: usize) -> u64
    requires { at < 2000000 }
    ensures { (result ≡ field 8 (drop at (bits_of s.now))) × (result < 256) }
{
    let j = at / 8;
    let v = wiring::byte_at(s, j) * 256 + wiring::byte_at(s, j + 1);
    (v >> (8 - at % 8)) % 256
}

// The 64 bits from bit `at` on, by eight bytes and the next one; bits past the end count as 0.
pub(crate) fn word_from(s: &[u8], at: usize) -> u64
    requires { at < 2000000 }
    ensures { result ≡ field 64 (drop at (bits_of s.now)) }
{
    let j = at / 8;
    let r = at % 8;
    let v = wiring::address_at(s, j);
    let b = wiring::byte_at(s, j + 8);
    (v << r) + (b >> (8 - r))
}

// The number in `width` bits from bit `at` on; bits past the end count as 0.
pub(crate) fn bits_at(s: &[u8], at: usize, width: usize) -> u64
    requires { (at < 2000000) × ((0 < width) × (width ≤ 64)) }
    ensures { (result ≡ field width (drop at (bits_of s.now))) × (result < 2 ^ width) }
{
    word_from(s, at) >> (64 - width)
}

// Sets the bit that stands r bits after byte j starts to b; nothing past the end.
fn set_bit(s: &mut [u8], j: usize, r: usize, b: u64)
    requires { (r < 8) × (b < 2) }
    ensures { bits_of s.new ≡ set (bits_of s.old) (8 * j + r) b }
{
    if j < s.len() {
        let v = s[j];
        s[j] = wiring::with_bit(v, r, b);
    }
}

// Puts the lowest `width` bits of x from bit `at` on; none past the end.
pub(crate) fn put_bits(s: &mut [u8], at: usize, width: usize, x: u64)
    requires { width ≤ 64 }
    ensures { bits_of s.new ≡ sets (bits_of s.old) at (number_bits width x) }
{
    let j = at / 8;
    let r = at % 8;
    for k in 0..width {
        let b = (x >> (width - (k + 1))) % 2;
        set_bit(s, j + (r + k) / 8, (r + k) % 8, b);
    }
}
