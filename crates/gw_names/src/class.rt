ghost use Rattle.std.specs.Prelude.{◌≡◌};
ghost use Rattle.std.specs.List.{list_all};
ghost use Rattle.std.specs.Char.{is_ascii_digit};
ghost use Rattle.gw_names.specs.Words.{class_word, is_class, is_class_word};

/// The class of a numerical attribute.
#[derive(Clone, Copy, PartialEq, Eq, Hash)]
pub enum Class {
    C1,
    Ac1,
    Tg1,
    M1,
    Xn1,
    Pr,
    P,
    F,
    Fc,
    S,
    R,
    Sc,
    Sm,
    Q,
    Qc,
    Qm,
    Qz,
    N,
    W,
    X,
    Ls,
    Ch,
    Cc,
    Tc,
    Rn,
    V,
    Fn,
}

/// Every class.
pub const CLASSES: [Class; 27] = [
    Class::C1,
    Class::Ac1,
    Class::Tg1,
    Class::M1,
    Class::Xn1,
    Class::Pr,
    Class::P,
    Class::F,
    Class::Fc,
    Class::S,
    Class::R,
    Class::Sc,
    Class::Sm,
    Class::Q,
    Class::Qc,
    Class::Qm,
    Class::Qz,
    Class::N,
    Class::W,
    Class::X,
    Class::Ls,
    Class::Ch,
    Class::Cc,
    Class::Tc,
    Class::Rn,
    Class::V,
    Class::Fn,
];

impl Class {
    /// The class's word, in upper case.
    pub fn word(self) -> &'static [u8]
        ensures { result.now ≡ class_word self }
    {
        match self {
            Class::C1 => b"C1",
            Class::Ac1 => b"AC1",
            Class::Tg1 => b"TG1",
            Class::M1 => b"M1",
            Class::Xn1 => b"XN1",
            Class::Pr => b"PR",
            Class::P => b"P",
            Class::F => b"F",
            Class::Fc => b"FC",
            Class::S => b"S",
            Class::R => b"R",
            Class::Sc => b"SC",
            Class::Sm => b"SM",
            Class::Q => b"Q",
            Class::Qc => b"QC",
            Class::Qm => b"QM",
            Class::Qz => b"QZ",
            Class::N => b"N",
            Class::W => b"W",
            Class::X => b"X",
            Class::Ls => b"LS",
            Class::Ch => b"CH",
            Class::Cc => b"CC",
            Class::Tc => b"TC",
            Class::Rn => b"RN",
            Class::V => b"V",
            Class::Fn => b"FN",
        }
    }
}

/// Whether an upper-case word is the word of a class, alone or followed by digits only.
#[tactic(auto, unfolding(crate::specs::Words::is_class))]
pub fn is_class(word: &[u8]) -> bool
    ensures { result ≡ is_class word.now }
{
    CLASSES
        .iter()
        .copied()
        .any(|class| is_class_word(word, class.word()))
}

fn is_class_word(word: &[u8], class: &[u8]) -> bool
    ensures { result ≡ is_class_word word.now class.now }
{
    word.starts_with(class) && are_digits(&word[class.len()..])
}

fn are_digits(text: &[u8]) -> bool
    ensures { result ≡ list_all is_ascii_digit text.now }
{
    text.iter().all(|b| b.is_ascii_digit())
}
