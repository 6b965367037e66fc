ghost use Rattle.std.specs.Prelude.{◌≡◌, ◌≢◌, ◌<◌, ◌∷◌, [], length, not};
ghost use Rattle.gw_lines.specs.Classes.{is_in, front_of, rest_of, word_of, behind_word, is_blank, is_nothing, tail_of, are_plain, pieces_of};

/// What the bytes of one part of a line have in common.
#[derive(Clone, Copy)]
pub enum Class {
    /// Blanks and tabs.
    Blank,
    /// Bytes of words: all but blanks.
    Mark,
    Digit,
    /// Bytes of one operand: all but commas.
    Operand,
    /// Bytes outside comments: all but `;`.
    Code,
    /// Bytes of one line: all but line feeds.
    Line,
    /// Bytes of one line of an edit: all but `|`.
    Part,
    /// Bytes before a decimal point: all but `.`.
    Whole,
    /// Bytes of one pair of a FUNCTION: all but `/`.
    Pair,
}

impl Class {
    /// Whether the byte is of the class.
    pub fn has(self, b: u8) -> bool
        ensures { result ≡ is_in self b }
    {
        match self {
            Class::Blank => is_blank(b),
            Class::Mark => !is_blank(b),
            Class::Digit => b.is_ascii_digit(),
            Class::Operand => b != b',',
            Class::Code => b != b';',
            Class::Line => b != b'\n',
            Class::Part => b != b'|',
            Class::Whole => b != b'.',
            Class::Pair => b != b'/',
        }
    }
}

/// Whether the byte is a blank or a tab.
pub fn is_blank(b: u8) -> bool
    ensures { result ≡ is_blank b }
{
    b == b' ' || b == b'\t'
}

/// The bytes of the class at the front, and the rest.
pub fn span(class: Class, bytes: &[u8]) -> (&[u8], &[u8])
    ensures front { result.0.now ≡ front_of class bytes.now }
    ensures rest { result.1.now ≡ rest_of class bytes.now }
{
    let mut n = 0;
    while n < bytes.len() && class.has(bytes[n]) {
        n += 1;
    }
    bytes.split_at(n)
}

/// The word at the front, and what follows it and its blanks.
pub fn word(bytes: &[u8]) -> (&[u8], &[u8])
    ensures word { result.0.now ≡ word_of bytes.now }
    ensures behind { result.1.now ≡ behind_word bytes.now }
{
    let (word, rest) = span(Class::Mark, bytes);
    (word, span(Class::Blank, rest).1)
}

/// The first piece of a text, whether a byte that is not of the class ends it, and what stands after that byte.
pub fn piece(class: Class, text: &[u8]) -> (&[u8], bool, &[u8])
    ensures front { result.0.now ≡ front_of class text.now }
    ensures ended { result.1 ≡ not (is_nothing (rest_of class text.now)) }
    ensures behind { result.2.now ≡ tail_of (rest_of class text.now) }
    // A text that is not empty is left with less.
    ensures shorter { text.now ≢ [] → length result.2.now < length text.now }
{
    let (front, rest) = span(class, text);
    (front, !rest.is_empty(), tail(rest))
}

// What follows the first byte.
fn tail(bytes: &[u8]) -> &[u8]
    ensures { result.now ≡ tail_of bytes.now }
{
    match bytes {
        [] => bytes,
        [_, rest @ ..] => rest,
    }
}

/// The first piece of a text, and what follows its end.
pub(crate) fn first_piece(class: Class, text: &[u8]) -> (&[u8], &[u8])
    ensures pieces { text.now ≢ [] → pieces_of class text.now ≡ result.0.now ∷ pieces_of class result.1.now }
    ensures none { text.now ≡ [] → (result.0.now ≡ []) × (result.1.now ≡ []) }
    ensures shorter { text.now ≢ [] → length result.1.now < length text.now }
{
    let (front, _, behind) = piece(class, text);
    (front, behind)
}

/// Whether each byte may stand outside comments.
pub(crate) fn are_plain(text: &[u8]) -> bool
    ensures { result ≡ are_plain text.now }
{
    text.iter().all(|b| *b < 128)
}
