ghost use Rattle.std.specs.Prelude.{◌≡◌, [], ◌∷◌, ◌++◌, OnOk, IfErr};
ghost use Rattle.gw_io.specs.Model.{with_feed};

use crate::budget::ReadFault;

// Puts a byte after the bytes, where memory has room for it.
pub(crate) fn push(bytes: &mut Vec<u8>, byte: u8) -> Result<(), ReadFault>
    ensures ok { OnOk result (bytes.new.items ≡ bytes.old.items ++ byte ∷ []) }
    ensures err { IfErr result (λ fault. fault ≡ ReadFault.Memory) }
{
    bytes.push(byte).map_err(|_| ReadFault::Memory)
}

// Puts more bytes after the bytes, where memory has room for them.
pub(crate) fn append(bytes: &mut Vec<u8>, more: &[u8]) -> Result<(), ReadFault>
    ensures ok { OnOk result (bytes.new.items ≡ bytes.old.items ++ more.now) }
    ensures err { IfErr result (λ fault. fault ≡ ReadFault.Memory) }
{
    bytes.extend_from_slice(more).map_err(|_| ReadFault::Memory)
}

// Puts a line and its line feed after the bytes, where memory has room for them.
pub(crate) fn append_line(bytes: &mut Vec<u8>, line: &[u8]) -> Result<(), ReadFault>
    ensures ok { OnOk result (bytes.new.items ≡ bytes.old.items ++ with_feed line.now) }
    ensures err { IfErr result (λ fault. fault ≡ ReadFault.Memory) }
{
    append(bytes, line)?;
    push(bytes, b'\n')
}
