// Whom an evaluation asks.
ghost use Rattle.std.specs.Prelude.{◌≡◌, ℕ, List, Option, Result, option_copied};
ghost use Rattle.gw_expr.specs.declared.halt.Halt.{Halt};
ghost use Rattle.gw_expr.specs.declared.function.Function.{Function};
ghost use Rattle.gw_expr.specs.Evaluation.{Question, NumberOf, AttributeOf, PartOf, VariableOf, FunctionOf, Reply};
ghost use Rattle.gw_expr.specs.Term.{Term};
ghost use Rattle.gw_expr.specs.Worlds.{with_reply};

use crate::attribute::{Sna, Subject};
use crate::expr::Expr;
use crate::function::Function;
use crate::halt::Halt;
use gw_names::Name;
use gw_nums::{Millionths, Val};

/// The definitions to which the names in an operand lead.
pub trait Defs {
    ghost variable_of: { Self → List ℕ → Option Term };

    ghost function_of: { Self → List ℕ → Option Function };

    /// The expression of the VARIABLE of this name, if there is one.
    fn variable(&self, name: &Name) -> Option<&Expr>
        ensures { option_copied result ≡ variable_of self.now name.now };

    /// The FUNCTION of this name, if there is one.
    fn function(&self, name: &Name) -> Option<&Function>
        ensures { option_copied result ≡ function_of self.now name.now };
}

/// What replies to every question but those for a definition. It notes what a reply rests on, and draws where a
/// question asks for it.
pub trait World {
    /// What the world may reply to a question, and what it then is.
    ghost replies: { (q : Question) → Self → Result (Reply q) Halt → Self → Type 0 };

    /// The number that a name stands for, if any.
    fn number(&mut self, name: &Name) -> Result<Option<Val>, Halt>
        ensures { replies (NumberOf name.now) self.old result self.new };

    /// The value of an attribute other than that of a VARIABLE or of a FUNCTION.
    fn attribute(&mut self, sna: Sna<'_>) -> Result<Val, Halt>
        ensures { replies (AttributeOf sna.entry.class sna.entry.of.now) self.old result self.new };

    /// A random number from a stream, as a part of a million.
    fn part(&mut self, of: &Subject) -> Result<Millionths, Halt>
        ensures { replies (PartOf of.now) self.old result self.new };

    /// Notes that the VARIABLE of this name is asked for.
    fn note_variable(&mut self, name: &Name) -> Result<(), Halt>
        ensures { (reply : Option Term) →
            replies (VariableOf name.now) self.old (with_reply reply result) self.new };

    /// Notes that the FUNCTION of this name is asked for.
    fn note_function(&mut self, name: &Name) -> Result<(), Halt>
        ensures { (reply : Option Function) →
            replies (FunctionOf name.now) self.old (with_reply reply result) self.new };
}
