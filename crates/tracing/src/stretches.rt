// Where the table of a phy lies in the lent words: its own stretch.
ghost use Rattle.std.specs.Prelude.{◌≡◌, ◌+◌, ◌-◌, ◌≤◌, ◌<◌, ◌^◌, false, not, length, get_or, take, drop, eqb};
ghost use Rattle.tables.specs.WiringDefinitions.{domain_in, expander_at, is_in};
ghost use Rattle.tables.specs.filling.Tables.{offset};
ghost use Rattle.tables.specs.filling.Entries.{entries, counted};
ghost use Rattle.tracing.specs.Reasons.{index_of};

use tables::{ExpanderNumber, PhyId, words_before};

// Whether word k counts as s: it is s with its disable bit clear. One whose bit is set counts as 0.
fn is_entry(words: &[u64], bits: &[u8], k: usize, s: u64) -> bool
    requires { k < length words.now }
    ensures { result ≡ eqb (get_or (counted (entries words.now bits.now)) k 0) s }
{
    if words[k] == s {
        if tables::bit_at(bits, k) == 0 {
            return true;
        }
        return 0 == s;
    }
    if s != 0 {
        return false;
    }
    tables::bit_at(bits, k) != 0
}

// Whether s is among the n words that count from `at` on, word by word.
fn lists_from(words: &[u64], bits: &[u8], at: usize, n: usize, s: u64) -> bool
    ensures { result ≡ is_in s (take n (drop at (counted (entries words.now bits.now)))) }
{
    for j in 0..n {
        let k = at + j;
        if words.len() <= k {
            return false;
        }
        if is_entry(words, bits, k, s) {
            return true;
        }
    }
    false
}

// Whether none of the eight words from k on is s.
fn eight_lack(words: &[u64], k: usize, s: u64) -> bool
    requires { k + 8 ≤ length words.now }
    ensures { result ≡ not (is_in s (take 8 (drop k words.now))) }
{
    for j in 0..8 {
        if words[k + j] == s {
            return false;
        }
    }
    true
}

// How many of the n words from `at` on are passed over, eight at a time, until s is among the next eight or fewer than eight are left.
// None of them is s.
fn passed_over(words: &[u64], at: usize, n: usize, s: u64) -> usize
    ensures { (result ≤ n) × ((result ≤ length words.now - at) × (is_in s (take result (drop at words.now)) ≡ false)) }
{
    if words.len() <= at {
        return 0;
    }
    let room = words.len() - at;
    let mut r: usize = 0;
    // No iterator: it goes on by eight words, which is what makes the search in a table fast.
    while 8 <= n - r {
        if room - r < 8 {
            return r;
        }
        if !eight_lack(words, at + r, s) {
            return r;
        }
        r += 8;
    }
    r
}

// Whether s is among the n words that count from `at` on. Where s is not 0, a word that is not s does not count as s, whatever
// its bit; so words without s are passed over first.
pub(crate) fn lists(words: &[u64], bits: &[u8], at: usize, n: usize, s: u64) -> bool
    ensures { result ≡ is_in s (take n (drop at (counted (entries words.now bits.now)))) }
{
    if s == 0 {
        return lists_from(words, bits, at, n, s);
    }
    let r = passed_over(words, at, n, s);
    lists_from(words, bits, at + r, n - r, s)
}

// Where the stretch of phy p of expander i starts, by the words before the expander and those of the phys below.
pub(crate) fn stretch_start(rows: &[u64], i: ExpanderNumber, p: PhyId) -> usize
    requires { p.0 < length (expander_at (domain_in rows.now) i.0).phys }
    ensures { (result ≡ offset (domain_in rows.now) i.0 p.0) × (result < 2 ^ 32) }
{
    let mut at = words_before(rows, i);
    for q in 0..p.0 {
        at += tables::size_at(rows, i, PhyId(q)) as usize;
    }
    at
}

// The lowest index at which the n words that count from `at` on have s; how many there are where none has it.
pub(crate) fn index_of(words: &[u64], bits: &[u8], at: usize, n: u16, s: u64) -> u16
    requires { at < 2 ^ 32 }
    ensures { result ≡ index_of s (take n (drop at (counted (entries words.now bits.now)))) }
{
    for k in 0..n {
        let here = at + (k as usize);
        if words.len() <= here {
            return k;
        }
        if is_entry(words, bits, here, s) {
            return k;
        }
    }
    n
}
