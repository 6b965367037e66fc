ghost use Rattle.std.specs.Prelude.{◌≡◌, slice_index};
ghost use Rattle.gw_names.specs.Heads.{head_of, mark_of};

/// How a name is spelled, with its head: the first eight bytes as a big-endian number, with zeros after a shorter
/// name. Names whose heads differ are told apart by them alone. The mark, which spreads names over slots, is kept, too.
#[derive(Drop)]
pub struct Spelling {
    /// The first eight bytes as a number.
    pub head: u64,
    /// All bytes as the digits of a number to the base 31, in 64 bits.
    pub mark: u64,
    /// Every byte.
    pub bytes: Vec<u8>,
}

impl Spelling {
    /// The spelling of these bytes.
    pub fn new(bytes: Vec<u8>) -> Spelling
        ensures bytes { result.bytes ≡ bytes }
        ensures head { result.head ≡ head_of bytes.items }
        ensures mark { result.mark ≡ mark_of bytes.items }
    {
        Spelling {
            head: head_of(bytes.as_slice()),
            mark: mark_of(bytes.as_slice()),
            bytes,
        }
    }
}

#[tactic(auto, unfolding(crate::specs::Heads::head_of))]
fn head_of(bytes: &[u8]) -> u64
    ensures { result ≡ head_of bytes.now }
{
    u64::from_be_bytes([
        byte_or_zero(bytes, 0),
        byte_or_zero(bytes, 1),
        byte_or_zero(bytes, 2),
        byte_or_zero(bytes, 3),
        byte_or_zero(bytes, 4),
        byte_or_zero(bytes, 5),
        byte_or_zero(bytes, 6),
        byte_or_zero(bytes, 7),
    ])
}

// The byte at an index, or zero after the last.
fn byte_or_zero(bytes: &[u8], index: usize) -> u8
    ensures { result ≡ slice_index bytes.now index }
{
    if index < bytes.len() { bytes[index] } else { 0 }
}

fn mark_of(bytes: &[u8]) -> u64
    ensures { result ≡ mark_of bytes.now }
{
    let mut mark: u64 = 0;
    for byte in bytes {
        mark = mark.wrapping_mul(31).wrapping_add(u64::from(*byte));
    }
    mark
}
