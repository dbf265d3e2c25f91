// The words of an exercise, and whether there is a rig for them.
ghost use Rattle.std.specs.Prelude.{◌≡◌, length, take};
ghost use Rattle.files.specs.Lists.{is_in};
ghost use Rattle.exercises.specs.Rig.{trimmed, no_rig};

// Whether the address is one of the words.
fn has_word(words: &[u64], a: u64) -> bool
    ensures { result ≡ is_in a words.now }
{
    words.contains(&a)
}

// How many words there are up to the last non-zero one.
pub(crate) fn trimmed_count(words: &[u64]) -> usize
    ensures { (result ≡ length (trimmed words.now)) × (take result words.now ≡ trimmed words.now) }
{
    match words.iter().rposition(|word| *word != 0) {
        Some(k) => k + 1,
        None => 0,
    }
}

// Whether there is no rig with these words as its table.
pub(crate) fn is_no_rig(a: u64, b: u64, words: &[u64]) -> bool
    ensures { result ≡ no_rig a b words.now }
{
    if a == 0 {
        return true;
    }
    if b == 0 {
        return true;
    }
    if a == b {
        return true;
    }
    if has_word(words, a) {
        return true;
    }
    if has_word(words, b) {
        return true;
    }
    if words.len() > 65535 {
        return true;
    }
    trimmed_count(words) > 127
}
