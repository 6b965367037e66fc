// The words of a script line.
ghost use Rattle.std.specs.Prelude.{◌≡◌, ◌<◌, IfSome, length, option_copied, option_map, position};
ghost use Rattle.std.specs.List.{list_all};
ghost use Rattle.gw_request.specs.Words.{is_blank, cut, first_word};

fn is_blank(byte: u8) -> bool
    ensures { result ≡ is_blank byte }
{
    byte == b' ' || byte == b'\t'
}

pub(crate) fn is_all_blank(line: &[u8]) -> bool
    ensures { result ≡ list_all is_blank line.now }
{
    line.iter().all(|b| is_blank(*b))
}

fn first_blank(line: &[u8]) -> Option<usize>
    ensures value { result ≡ position is_blank line.now }
    ensures within { IfSome result (λ i. i < length line.now) }
{
    line.iter().position(|b| is_blank(*b))
}

// What stands before the first blank, and what stands after it.
pub fn cut(line: &[u8]) -> Option<(&[u8], &[u8])>
    ensures { option_map (λ p. (p.0.now, p.1.now)) result ≡ cut line.now }
{
    match first_blank(line) {
        Some(i) => Some((&line[..i], &line[i + 1..])),
        None => None,
    }
}

// The first word, and what stands after its blank, where it has one.
pub fn first_word(line: &[u8]) -> (&[u8], Option<&[u8]>)
    ensures { (result.0.now, option_copied result.1) ≡ first_word line.now }
{
    match cut(line) {
        Some((word, behind)) => (word, Some(behind)),
        None => (line, None),
    }
}
