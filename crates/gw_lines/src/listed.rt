ghost use Rattle.std.specs.Prelude.{◌≡◌, ◌<◌, ◌≤◌, ◌+◌, ◌^◌, IfOk, true};
ghost use Rattle.gw_names.specs.Words.{upper_of};
ghost use Rattle.gw_lines.specs.Listed.{is_open, shallower, depth_behind, listed_of};

use crate::class::is_blank;
use std::alloc::{AllocError, Global};

/// The operand list at the front, in upper case and without the blanks that are skipped: those before it, those right
/// after a comma and those in parentheses. It ends at the first other blank.
pub fn listed(alloc: Global, bytes: &[u8]) -> Result<Vec<u8>, AllocError>
    ensures { IfOk result (λ v. v.items ≡ upper_of (listed_of true 0 bytes.now)) }
{
    let mut text = Vec::new(alloc);
    let mut skips = true;
    let mut depth = 0;
    for b in bytes {
        if !is_blank(*b) {
            text.push(b.to_ascii_uppercase())?;
            skips = *b == b',' && !is_open(depth);
            depth = depth_behind(*b, depth);
        } else if !skips && !is_open(depth) {
            return Ok(text);
        }
    }
    Ok(text)
}

// Whether parentheses are open.
fn is_open(depth: usize) -> bool
    ensures { result ≡ is_open depth }
{
    depth > 0
}

// How many parentheses are open after a byte.
fn depth_behind(b: u8, depth: usize) -> usize
    requires { depth < 2 ^ 63 }
    ensures depth { result ≡ depth_behind b depth }
    ensures bound { result ≤ depth + 1 }
{
    match b {
        b'(' => depth + 1,
        b')' => shallower(depth),
        _ => depth,
    }
}

/// How many are open after a closing one.
pub(crate) fn shallower(depth: usize) -> usize
    ensures { result ≡ shallower depth }
{
    match depth {
        0 => 0,
        _ => depth - 1,
    }
}
