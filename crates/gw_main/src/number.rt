// The numbers among the program's words.
ghost use Rattle.std.specs.Prelude.{◌≡◌};
ghost use Rattle.gw_request.specs.Numbers.{number_of};
ghost use Rattle.gw_main.specs.Words.{within};

use gw_request::number_of;

/// The number that a word is, where it is one of 1 to 18 digits and lies within the limits.
pub(crate) fn number_within(word: &str, least: u64, greatest: u64) -> Option<u64>
    ensures { result ≡ within least greatest (number_of word.now) }
{
    match number_of(word.as_bytes()) {
        Some(number) if least <= number && number <= greatest => Some(number),
        _ => None,
    }
}
