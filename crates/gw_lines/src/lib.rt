//! Lines of a model: from a model's bytes to its statements or its first faulty line, and from an edit's text to a
//! statement or its first fault.
//!
//! [`read_model`] reads all lines, [`read_edit`] the text of an edit, in which `|` ends a line, and [`read_statement`]
//! one line. A statement has one line, and a FUNCTION's pairs stand on further ones (pairs): no statement is handed out
//! that wants more of them. A line is cut into words (words), and its operand list is copied without the blanks that
//! are skipped (listed). In front of it stands the operator of a verb that takes one, and after its first operand a
//! sign (auxiliary). What the operands of a verb may be is a list of forms (form). The list is split once, each part is
//! read by its form (operands, operand, number, atom, attribute, expression), and the statement is made of what was
//! read (field, body). What is read is a [`Statement`], which [`Statement::put_text`] lists.
//!
//! All goes by the forms of a verb's operands and by its operators. Where a further verb or kind of operand goes:
//! docs/contributing.md.
//!
//! What is proved:
//!
//! - A text is read (`Ok`) only as what it spells, by a relation apart from the reader. What is spelled is read, or the
//!   answer is out of memory. A fault is reported exactly where it is the first one, and by its code.
//! - Operands are cut at commas, lines at line feeds and at bars.
//! - The same holds of the lines of a model, and of the text of an edit.
//! - What `list` prints of a statement that was read is read as that statement: as the text of an edit, and, with a
//!   line end for each `|`, in a model.
//!
//! Contracts: `read_statement` (found, only, fault, faulty); `read_model` and `read_edit` (these, whole and exact);
//! `texts_are_cut`, `models_are_read`, `edits_are_read`, `printed_is_read`; `LineFault::put_code`.
#![tactic(auto)]

mod atom;
mod attribute;
mod auxiliary;
mod body;
mod class;
mod edit;
mod expression;
mod fault;
mod field;
mod form;
mod laws;
mod line;
mod listed;
mod model;
mod number;
mod operand;
mod operands;
mod pairs;
mod words;

pub use edit::{read_edit, read_statement};
pub use fault::{FaultyLine, LineFault};
pub use gw_meaning::Statement;
pub use laws::{edits_are_read, models_are_read, printed_is_read, texts_are_cut};
pub use model::read_model;
