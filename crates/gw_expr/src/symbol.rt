ghost use Rattle.std.specs.Prelude.{◌≡◌};
ghost use Rattle.gw_expr.specs.Symbols.{symbol_of};

use crate::token::Operator;

/// A byte of an expression that is no part of a word.
#[derive(Clone, Copy)]
pub enum Symbol {
    /// `(`
    Opening,
    /// `)`
    Closing,
    /// An operator of a sum. A minus is a sign where no operand stands before it.
    Sum(Operator),
    /// An operator that binds tighter than those of a sum.
    Product(Operator),
}

/// The symbol that a byte is, where it is no part of a word. (Manual.)
pub fn symbol_of(b: u8) -> Option<Symbol>
    ensures { result ≡ symbol_of b }
{
    match b {
        b'(' => Some(Symbol::Opening),
        b')' => Some(Symbol::Closing),
        b'+' => Some(Symbol::Sum(Operator::Plus)),
        b'-' => Some(Symbol::Sum(Operator::Minus)),
        b'#' => Some(Symbol::Product(Operator::Times)),
        b'\\' => Some(Symbol::Product(Operator::Quotient)),
        b'@' => Some(Symbol::Product(Operator::Remainder)),
        _ => None,
    }
}
