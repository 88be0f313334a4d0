// The whole words of a slice of bytes, big-endian.
ghost use Rattle.std.specs.Prelude.{◌≡◌, ◌+◌, ◌*◌, ◌/◌, ◌≤◌, min, length};
ghost use Rattle.laws.specs.Lists.{up_to};
ghost use Rattle.listing.specs.Listing.{word_at};

// Word k: four bytes, the highest first.
fn word_at(bytes: &[u8], k: usize) -> u32
    requires { k * 4 + 4 ≤ length bytes.now }
    ensures { result ≡ word_at bytes.now k }
{
    let i = k * 4;
    u32::from_be_bytes([bytes[i], bytes[i + 1], bytes[i + 2], bytes[i + 3]])
}

// Reads words into the lent slice until either ends; returns how many.
#[tactic(auto, unfolding(laws::specs::Lists::up_to))]
pub fn read_words(bytes: &[u8], words: &mut [u32]) -> usize
    ensures value { result ≡ min (length bytes.now / 4) (length words.old) }
    ensures words_after { words.new ≡ up_to result (word_at bytes.now) words.old }
{
    let n = words.len().min(bytes.len() / 4);
    for i in 0..n {
        words[i] = word_at(bytes, i);
    }
    n
}
