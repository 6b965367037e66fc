ghost use Rattle.std.specs.Prelude.{◌≡◌, ◌++◌, ◌+◌, ◌<◌, ◌≤◌, OnOk, OnErr, decimal, vec_len, vec_capacity};

use itoa::Buffer;
use std::alloc::AllocError;

/// Appends the decimal digits of a number, at most 20. Memory is wanted only where there is no room for 20.
pub fn put_decimal(out: &mut Vec<u8>, number: u64) -> Result<(), AllocError>
    ensures ok { OnOk result (out.new.items ≡ out.old.items ++ decimal number) }
    ensures err { OnErr result (out.new.items ≡ out.old.items) }
    ensures full { OnErr result (vec_capacity out.old < vec_len out.old + 20) }
    ensures len { OnOk result (vec_len out.new ≤ vec_len out.old + 20) }
    ensures capacity { vec_capacity out.old ≤ vec_capacity out.new }
{
    let mut buffer = Buffer::new();
    out.extend_from_slice(buffer.format(number).as_bytes())
}
