// A helper of the calls from C, not for callers of the library: stepping over another type without an answer of the walk.
ghost use Rattle.std.specs.Prelude.{◌≡◌};
ghost use Rattle.walking.specs.Other.{other_size};

use crate::size_of;
use counts::WordNumber;
use reading::heads::type_of;

// Fast path of stepping over another type: the words of its message if all are there, and `None` for any other answer of the walk.
pub fn other_size(words: &[u32], position: WordNumber) -> Option<WordNumber>
    ensures { result ≡ other_size words.now position.0 }
{
    let pos = position.0;
    if words.len() <= pos {
        return None;
    }
    let ump_type = type_of(words[pos]) as u32;
    let size = size_of(ump_type);
    // Fast path: a single word is always there, and with a constant the next step need not wait for the look-up.
    if size.0 == 1 {
        return Some(WordNumber(1));
    }
    if ump_type == 15 {
        return None;
    }
    if words.len() - pos < size.0 {
        return None;
    }
    Some(size)
}
