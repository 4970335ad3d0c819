ghost use Rattle.std.specs.Prelude.{◌≡◌, ◌≤◌, length, true};
ghost use Rattle.std.specs.Char.{is_ascii_digit};
ghost use Rattle.std.specs.List.{list_all};
ghost use Rattle.std.specs.Str.Parse.{digits_value};
ghost use Rattle.line_lexer.specs.Numbers.{number_of};

fn is_digits(word: &[u8]) -> bool
    ensures { result ≡ list_all is_ascii_digit word.now }
{
    word.iter().all(|b| b.is_ascii_digit())
}

/// The number that a few digits write.
fn value_of(word: &[u8]) -> u32
    requires digits { list_all is_ascii_digit word.now ≡ true }
    requires few { length word.now ≤ 9 }
    ensures { result ≡ digits_value 10 word.now }
{
    let mut n: u32 = 0;
    for b in word {
        n = n * 10 + (*b - b'0') as u32;
    }
    n
}

/// The number that a word spells.
#[tactic(auto, unfolding(crate::specs::Numbers::number_of))]
pub fn decimal(word: &[u8]) -> Option<u32>
    ensures { result ≡ number_of word.now }
{
    if word.len() >= 1 && word.len() <= 9 && is_digits(word) {
        Some(value_of(word))
    } else {
        None
    }
}
