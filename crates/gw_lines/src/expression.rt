ghost use Rattle.std.specs.Prelude.{◌≡◌, ◌∷◌, [], true, IfOk, option_map};
ghost use Rattle.gw_lines.specs.Expressions.{before, completed, settled, taken, closed_in, opened, by_symbol, with_symbol, with_byte, step, ended, tokens_of, before_closing, inside_of, computed, computed_of, bare_of};

use crate::atom::atom_of;
use crate::listed::shallower;
use gw_expr::{Expr, Operator, Row, Symbol, Token, symbol_of};
use std::alloc::{AllocError, Global};
use std::marker::Model;

// How many parentheses may be open at once.
const DEEPEST: usize = 32;

/// What waits for the operand that comes next.
#[derive(Clone, Copy)]
pub enum Pending {
    /// An open parenthesis, which waits for all up to its closing one.
    Opening,
    /// A sign before it.
    Sign,
    /// An operator between the product so far and it.
    Product(Operator),
    /// An operator between the sum so far and the product that it begins.
    Sum(Operator),
}

// An expression as it is read.
#[derive(Drop)]
struct Reader {
    word: Vec<u8>,
    given: bool,
    depth: usize,
    pending: Vec<Pending>,
    tokens: Vec<Token>,
}

impl Model for Reader {
    ghost use Rattle.std.specs.Prelude.{reverse};
    ghost use Rattle.gw_lines.specs.Expressions.{State};

    ghost Value = { State };

    ghost view = { λ r. record {
      word = r.word.items;
      given = r.given;
      depth = r.depth;
      pending = reverse r.pending.items;
      tokens = r.tokens.items;
    } };
}

/// The expression in parentheses that a text in upper case is.
pub(crate) fn read_expression(alloc: Global, text: &[u8]) -> Result<Option<Expr>, AllocError>
    ensures { IfOk result (λ o. o ≡ computed_of text.now) }
{
    match inside(text) {
        Some(inner) => computed(read_tokens(alloc, 1, inner)?),
        None => Ok(None),
    }
}

/// The expression that a text in upper case is, without parentheses around the whole.
pub(crate) fn read_bare(alloc: Global, text: &[u8]) -> Result<Option<Expr>, AllocError>
    ensures { IfOk result (λ o. o ≡ bare_of text.now) }
{
    computed(read_tokens(alloc, 0, text)?)
}

fn computed(read: Option<Vec<Token>>) -> Result<Option<Expr>, AllocError>
    ensures { IfOk result (λ o. o ≡ computed (option_map (λ v. v.items) read)) }
{
    match read {
        Some(tokens) => Ok(Some(Expr::Computed(Row::from_vec(tokens)))),
        None => Ok(None),
    }
}

// What stands between parentheses that span a text.
fn inside(text: &[u8]) -> Option<&[u8]>
    ensures { option_map (λ t. t.now) result ≡ inside_of text.now }
{
    match text {
        [] => None,
        [first, rest @ ..] => {
            if *first == b'(' {
                before_closing(rest)
            } else {
                None
            }
        }
    }
}

// What stands before the closing parenthesis at the very end.
fn before_closing(text: &[u8]) -> Option<&[u8]>
    ensures { option_map (λ t. t.now) result ≡ before_closing text.now }
{
    text.strip_suffix(b")")
}

// The tokens that a text is, after so many open parentheses.
#[tactic(auto, unfolding(crate::specs::Expressions::tokens_of))]
fn read_tokens(alloc: Global, depth: usize, text: &[u8]) -> Result<Option<Vec<Token>>, AllocError>
    ensures { IfOk result (λ o. option_map (λ v. v.items) o ≡ tokens_of depth text.now) }
{
    let mut reader = Reader::new(alloc, depth);
    for b in text {
        reader = match reader.step(alloc, *b)? {
            Some(next) => next,
            None => return Ok(None),
        };
    }
    match reader.taken(alloc)? {
        Some(last) => last.ended(),
        None => Ok(None),
    }
}

impl Reader {
    // Before the first operand.
    fn new(alloc: Global, depth: usize) -> Reader
        ensures { result ≡ before depth [] [] }
    {
        Reader {
            word: Vec::new(alloc),
            given: false,
            depth,
            pending: Vec::new(alloc),
            tokens: Vec::new(alloc),
        }
    }

    // After a byte.
    fn step(self, alloc: Global, b: u8) -> Result<Option<Reader>, AllocError>
        ensures { IfOk result (λ o. o ≡ step b self) }
    {
        match symbol_of(b) {
            None => Ok(Some(self.with_byte(b)?)),
            Some(symbol) => match self.taken(alloc)? {
                Some(reader) => reader.with_symbol(symbol),
                None => Ok(None),
            },
        }
    }

    fn with_byte(mut self, b: u8) -> Result<Reader, AllocError>
        ensures { IfOk result (λ r. r ≡ with_byte b self) }
    {
        self.word.push(b)?;
        Ok(self)
    }

    // With the operand that the word is, if there is one.
    fn taken(mut self, alloc: Global) -> Result<Option<Reader>, AllocError>
        ensures { IfOk result (λ o. o ≡ taken self) }
    {
        if self.word.is_empty() {
            return Ok(Some(self));
        }
        if self.given {
            return Ok(None);
        }
        match atom_of(alloc, &self.word)? {
            Some(atom) => {
                self.tokens.push(Token::Value(atom))?;
                Ok(Some(self.completed()?))
            }
            None => Ok(None),
        }
    }

    // After an operand, whose signs and product are done with.
    fn completed(mut self) -> Result<Reader, AllocError>
        ensures { IfOk result (λ r. r ≡ completed self.depth self.pending self.tokens) }
    {
        self.word.clear();
        self.given = true;
        match self.pending.pop() {
            Some(Pending::Sign) => {
                self.tokens.push(Token::Negated)?;
                return self.completed();
            }
            Some(Pending::Product(operator)) => self.tokens.push(Token::Applied(operator))?,
            Some(wait) => self.pending.push(wait)?,
            None => {}
        }
        Ok(self)
    }

    // After a product, whose sum is done with.
    fn settled(mut self) -> Result<Reader, AllocError>
        ensures { IfOk result (λ r. r ≡ settled self.depth self.pending self.tokens) }
    {
        self.word.clear();
        self.given = true;
        match self.pending.pop() {
            Some(Pending::Sum(operator)) => self.tokens.push(Token::Applied(operator))?,
            Some(wait) => self.pending.push(wait)?,
            None => {}
        }
        Ok(self)
    }

    // After a symbol.
    fn with_symbol(self, symbol: Symbol) -> Result<Option<Reader>, AllocError>
        ensures { IfOk result (λ o. o ≡ with_symbol symbol self) }
    {
        if self.given {
            return self.behind_operand(symbol);
        }
        match symbol {
            Symbol::Opening => self.opened(),
            Symbol::Sum(Operator::Minus) => Ok(Some(self.waiting(Pending::Sign)?)),
            Symbol::Closing | Symbol::Sum(_) | Symbol::Product(_) => Ok(None),
        }
    }

    fn behind_operand(self, symbol: Symbol) -> Result<Option<Reader>, AllocError>
        ensures { IfOk result (λ o. o ≡ by_symbol symbol true self) }
    {
        match symbol {
            Symbol::Opening => Ok(None),
            Symbol::Closing => self.settled()?.closed(),
            Symbol::Sum(operator) => Ok(Some(self.settled()?.waiting(Pending::Sum(operator))?)),
            Symbol::Product(operator) => Ok(Some(self.waiting(Pending::Product(operator))?)),
        }
    }

    // Before an operand, for which this waits, too.
    fn waiting(mut self, wait: Pending) -> Result<Reader, AllocError>
        ensures { IfOk result (λ r. r ≡ before self.depth (wait ∷ self.pending) self.tokens) }
    {
        self.word.clear();
        self.given = false;
        self.pending.push(wait)?;
        Ok(self)
    }

    // After an opening parenthesis.
    fn opened(mut self) -> Result<Option<Reader>, AllocError>
        ensures { IfOk result (λ o. o ≡ opened self) }
    {
        if self.depth >= DEEPEST {
            return Ok(None);
        }
        self.depth += 1;
        Ok(Some(self.waiting(Pending::Opening)?))
    }

    // After a closing one.
    fn closed(mut self) -> Result<Option<Reader>, AllocError>
        ensures { IfOk result (λ o. o ≡ closed_in self) }
    {
        match self.pending.pop() {
            Some(Pending::Opening) => {
                self.depth = shallower(self.depth);
                Ok(Some(self.completed()?))
            }
            _ => Ok(None),
        }
    }

    // The tokens, where an operand is complete and no parenthesis is open.
    fn ended(self) -> Result<Option<Vec<Token>>, AllocError>
        ensures { IfOk result (λ o. option_map (λ v. v.items) o ≡ ended self) }
    {
        if !self.given {
            return Ok(None);
        }
        let reader = self.settled()?;
        if reader.pending.is_empty() {
            Ok(Some(reader.tokens))
        } else {
            Ok(None)
        }
    }
}
