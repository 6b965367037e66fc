// What an evaluation of operands asks of a state.
ghost use Rattle.gw_values.specs.Seeing.{Replies};

use crate::attributes::{attribute, random_part};
use crate::context::Context;
use gw_asking::{Notes, ask_number};
use gw_expr::{Halt, Sna, Subject, World};
use gw_meaning::Asked;
use gw_names::Name;
use gw_nums::{Millionths, Val};

// A context, and where what is asked of it is noted.
#[derive(Drop)]
pub struct Seen<'a> {
    pub context: Context<'a>,
    pub notes: &'a mut Notes,
}

impl<'a> World for Seen<'a> {
    ghost replies = { Replies };

    fn number(&mut self, name: &Name) -> Result<Option<Val>, Halt> {
        Ok(ask_number(self.context.run.version, self.notes, name)?)
    }

    fn attribute(&mut self, sna: Sna<'_>) -> Result<Val, Halt> {
        attribute(self.context, self.notes, sna.class, sna.of)
    }

    fn part(&mut self, of: &Subject) -> Result<Millionths, Halt> {
        random_part(self.context.run, self.notes, of)
    }

    fn note_variable(&mut self, name: &Name) -> Result<(), Halt> {
        self.notes.note_asked(Asked::Variable, name)?;
        Ok(())
    }

    fn note_function(&mut self, name: &Name) -> Result<(), Halt> {
        self.notes.note_asked(Asked::Function, name)?;
        Ok(())
    }
}
