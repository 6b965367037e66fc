// Numbers in a script.
ghost use Rattle.std.specs.Prelude.{◌≡◌, ◌≤◌, IsTrue, length, option_map};
ghost use Rattle.std.specs.List.{list_all};
ghost use Rattle.std.specs.Char.{is_ascii_digit};
ghost use Rattle.gw_request.specs.Numbers.{number_of, next_number, value_of};

use crate::words::cut;

const MOST_DIGITS: usize = 18;

/// The number that a word is: 1 to 18 digits, with no sign and no blank.
pub fn number_of(word: &[u8]) -> Option<u64>
    ensures { result ≡ number_of word.now }
{
    if word.is_empty() || word.len() > MOST_DIGITS || !are_digits(word) {
        return None;
    }
    Some(value_of(word))
}

// The number that the first word is, and what stands after its blank.
pub fn next_number(words: &[u8]) -> Option<(u64, &[u8])>
    ensures { option_map (λ p. (p.0, p.1.now)) result ≡ next_number words.now }
{
    let (word, behind) = cut(words)?;
    Some((number_of(word)?, behind))
}

fn are_digits(word: &[u8]) -> bool
    ensures { result ≡ list_all is_ascii_digit word.now }
{
    word.iter().all(|b| b.is_ascii_digit())
}

fn value_of(digits: &[u8]) -> u64
    requires few { length digits.now ≤ 18 }
    requires digits { IsTrue (list_all is_ascii_digit digits.now) }
    ensures { result ≡ value_of 0 digits.now }
{
    let mut value = 0u64;
    for digit in digits {
        value = value * 10 + u64::from(*digit - b'0');
    }
    value
}
