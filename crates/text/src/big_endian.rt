// Four bytes as a big-endian word.
ghost use Rattle.std.specs.Prelude.{◌≡◌};
ghost use Rattle.text.specs.BigEndian.{big_endian_at};

// The four bytes from byte i on as a big-endian word; 0 if they are not all there. LLVM compiles this to one load and one swap.
// No Option: each caller has tested the length, and would have to name a 0 of its own.
#[tactic(auto, unfolding(crate::specs::BigEndian::big_endian_at))]
pub fn big_endian(bytes: &[u8], i: usize) -> u32
    ensures { result ≡ big_endian_at bytes.now i }
{
    if bytes.len() < 4 {
        return 0;
    }
    if bytes.len() - 4 < i {
        return 0;
    }
    u32::from_be_bytes([bytes[i], bytes[i + 1], bytes[i + 2], bytes[i + 3]])
}
