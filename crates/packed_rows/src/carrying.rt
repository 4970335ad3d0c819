//! Elements of words that move by one place, a word at a time.

ghost use Rattle.std.specs.Prelude.{◌≡◌, ◌<◌, ◌≤◌, ◌+◌, ◌-◌, ◌*◌, ◌/◌, ◌%◌, ◌^◌, ℕ, length, slice_index};
ghost use Rattle.std.specs.Int.{bit_at};
ghost use Rattle.packed_rows.specs.Packed.{element};
ghost use Rattle.packed_rows.specs.Shifts.{AreShifted};

/// The word whose lowest bits, so many, are one.
fn ones(count: usize) -> u64
    requires { count ≤ 64 }
    ensures { result ≡ 2 ^ count - 1 }
{
    if count == 64 {
        u64::MAX
    } else {
        (1 << count) - 1
    }
}

/// The bits of `new` from `low` up to `high`, and those of `old` elsewhere.
fn blended(old: u64, new: u64, low: usize, high: usize) -> u64
    requires order { low ≤ high }
    requires within { high ≤ 64 }
    ensures inside { (j : ℕ) → low ≤ j → j < high → bit_at result j ≡ bit_at new j }
    ensures below { (j : ℕ) → j < low → bit_at result j ≡ bit_at old j }
    ensures above { (j : ℕ) → high ≤ j → bit_at result j ≡ bit_at old j }
{
    let mask = ones(high) - ones(low);
    old ^ ((old ^ new) & mask)
}

/// The word at a place, or zero behind the words.
fn word_at(words: &[u64], w: usize) -> u64
    ensures { result ≡ slice_index words.now w }
{
    if w < words.len() { words[w] } else { 0 }
}

/// The word before a place, or zero before the words.
fn word_before(words: &[u64], w: usize) -> u64
    requires { w ≤ length words.now }
    ensures { (k : ℕ) → k + 1 ≡ w → result ≡ slice_index words.now k }
{
    if w == 0 { 0 } else { words[w - 1] }
}

/// The upper neighbours of the elements of a word.
fn upper_neighbours(words: &[u64], w: usize) -> u64
    requires { w < length words.now }
    ensures { (j : ℕ) → j < 64 → bit_at result j ≡ element words.now (64 * w + j + 1) }
{
    (words[w] >> 1) | (word_at(words, w + 1) << 63)
}

/// The lower neighbours of the elements of a word.
fn lower_neighbours(words: &[u64], w: usize) -> u64
    requires { w < length words.now }
    ensures { (i j : ℕ) → j < 64 → i + 1 ≡ 64 * w + j → bit_at result j ≡ element words.now i }
{
    (words[w] << 1) | (word_before(words, w) >> 63)
}

/// Gives the elements from `at` on, so many and in one word, the values of their upper neighbours.
fn lower_in_word(words: &mut [u64], at: usize, count: usize)
    requires place { at / 64 < length words.old }
    requires within { at % 64 + count ≤ 64 }
    ensures count { length words.new ≡ length words.old }
    ensures shifted { AreShifted at (at + count) (element words.old) (element words.new) }
{
    let w = at / 64;
    let low = at % 64;
    words[w] = blended(words[w], upper_neighbours(words, w), low, low + count);
}

/// Gives the elements from `at` on downward, so many and in one word, the values of their lower neighbours.
fn raise_in_word(words: &mut [u64], at: usize, count: usize)
    requires place { at / 64 < length words.old }
    requires within { count ≤ at % 64 + 1 }
    requires enough { count ≤ at }
    ensures count { length words.new ≡ length words.old }
    ensures shifted { AreShifted at (at - count) (element words.old) (element words.new) }
{
    let w = at / 64;
    let high = at % 64 + 1;
    words[w] = blended(words[w], lower_neighbours(words, w), high - count, high);
}

/// Gives the elements from `from` up to `to` the values of their upper neighbours.
fn lower(words: &mut [u64], from: usize, to: usize)
    requires order { from ≤ to }
    requires within { to / 64 < length words.old }
    ensures count { length words.new ≡ length words.old }
    ensures shifted { AreShifted from to (element words.old) (element words.new) }
{
    let mut at = from;
    while at < to {
        let count = (64 - at % 64).min(to - at);
        lower_in_word(words, at, count);
        at += count;
    }
}

/// Gives the elements from `from` down to the one behind `to` the values of their lower neighbours.
fn raise(words: &mut [u64], from: usize, to: usize)
    requires order { to ≤ from }
    requires within { from / 64 < length words.old }
    ensures count { length words.new ≡ length words.old }
    ensures shifted { AreShifted from to (element words.old) (element words.new) }
{
    let mut at = from;
    while to < at {
        let count = (at % 64 + 1).min(at - to);
        raise_in_word(words, at, count);
        at -= count;
    }
}

/// Gives each element from `from` on toward `to` the value of the next one.
pub(crate) fn shift(words: &mut [u64], from: usize, to: usize)
    requires first { from / 64 < length words.old }
    requires second { to / 64 < length words.old }
    ensures count { length words.new ≡ length words.old }
    ensures shifted { AreShifted from to (element words.old) (element words.new) }
{
    if from < to {
        lower(words, from, to);
    } else {
        raise(words, from, to);
    }
}
