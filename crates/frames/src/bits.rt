// Bits packed into bytes, most significant bit first: reading one, and the disable bits of table words.
ghost use Rattle.std.specs.Prelude.{◌≡◌, cond, ◌+◌, ◌-◌, ◌%◌, ◌^◌, ◌≤◌, ◌<◌, length, get_or, drop, eqb};
ghost use Rattle.frames.specs.Bits.{with_bit, field, bits_of, bytes_for, zero_bits, marked};

// The weight of bit k in its byte.
fn weight(k: usize) -> u8
    ensures { (result ≡ 2 ^ (7 - k % 8)) × (0 < result) }
{
    1 << (7 - k % 8)
}

// Bit k, 0 past the end.
pub fn bit_at(s: &[u8], k: usize) -> u8
    ensures { result ≡ get_or (bits_of s.now) k 0 }
{
    let j = k / 8;
    let m = weight(k);
    if j < s.len() {
        return s[j] / m % 2;
    }
    0
}

// A byte with b as its bit k, counted on from byte to byte; of both what is left by eight and by two.
pub fn with_bit(byte: u8, k: usize, b: u64) -> u8
    ensures { result ≡ with_bit byte (7 - k % 8) (b % 2) }
{
    let m = weight(k) as u64;
    let v = byte as u64;
    (v - (v & m) + b % 2 * m) as u8
}

// How many bytes n bits take: n over eight, rounded up.
pub fn bytes_for(n: usize) -> usize
    ensures { result ≡ bytes_for n }
{
    n / 8 + (n % 8 + 7) / 8
}

// The disable bit of word i, 0 past the end.
fn zero_bit(words: &[u64], i: usize) -> u8
    ensures { (result ≡ get_or (zero_bits words.now) i 0) × (result < 2) }
{
    if i < words.len() {
        if words[i] == 0 {
            return 1;
        }
        return 0;
    }
    0
}

// The byte with the disable bits of the eight words from `at` on.
fn zero_byte(words: &[u64], at: usize) -> u8
    requires { at + 8 < 2 ^ 64 }
    ensures { result ≡ field 8 (drop at (zero_bits words.now)) }
{
    let mut x: u8 = 0;
    for k in 0..8 {
        x = 2 * x + zero_bit(words, at + k);
    }
    x
}

// Whether the eight words from `at` on are all zero, where `zero` is set; otherwise whether none of them is.
fn eight_alike(words: &[u64], at: usize, zero: bool) -> bool
    requires { at + 8 ≤ length words.now }
    ensures { result ≡ eqb (field 8 (drop at (zero_bits words.now))) (cond zero 255 0) }
{
    for k in 0..8 {
        if (words[at + k] == 0) != zero {
            return false;
        }
    }
    true
}

// The byte with the disable bits of the eight words from `at` on: 0 where none of them is zero, 255 where all are, and bit by bit otherwise.
fn byte_of_eight(words: &[u64], at: usize) -> u8
    requires { at + 8 < 2 ^ 64 }
    ensures { result ≡ field 8 (drop at (zero_bits words.now)) }
{
    if words.len() < at + 8 {
        return zero_byte(words, at);
    }
    if eight_alike(words, at, false) {
        return 0;
    }
    if eight_alike(words, at, true) {
        return 255;
    }
    zero_byte(words, at)
}

// Sets a bit exactly where the word is zero, and clears the others and the padding bits of the last byte. The bytes after
// stay, and all of them where there are too few.
pub fn mark_zeros(words: &[u64], bits: &mut [u8])
    ensures { bits.new ≡ marked words.now bits.old }
{
    let n = bytes_for(words.len());
    if bits.len() < n {
        return;
    }
    for i in 0..n {
        bits[i] = byte_of_eight(words, 8 * i);
    }
}
