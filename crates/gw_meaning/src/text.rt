// A statement's text.
ghost use Rattle.std.specs.Prelude.{◌≡◌, ◌≤◌, ◌++◌, OnOk, OnErr};
ghost use Rattle.gw_meaning.specs.Texts.{text_of, label_room};

use crate::statement::Statement;
use std::alloc::AllocError;

impl Statement {
    /// Appends the statement as `list` prints it: its label, its verb in upper case and its operands, with one
    /// blank between and none at the end. Where it is out of memory, the text is as it was.
    pub fn put_text(&self, text: &mut Vec<u8>) -> Result<(), AllocError>
        ensures value { OnOk result (text.new.items ≡ text.old.items ++ text_of self.now) }
        ensures err { OnErr result (text.new.items ≡ text.old.items) }
    {
        let verb = self.body.verb().word();
        let operands = self.operands.as_slice();
        text.reserve(self.label_len() + verb.len() + 1 + operands.len())?;
        if let Some(label) = &self.label {
            text.extend_from_slice(label.as_bytes())?;
            text.push(b' ')?;
        }
        text.extend_from_slice(verb)?;
        if !operands.is_empty() {
            text.push(b' ')?;
            text.extend_from_slice(operands)?;
        }
        Ok(())
    }

    // How many bytes a label and the blank after it take.
    fn label_len(&self) -> usize
        ensures value { result ≡ label_room self.now.label }
        ensures bound { result ≤ 201 }
    {
        match &self.label {
            Some(label) => label.as_bytes().len() + 1,
            None => 0,
        }
    }
}
