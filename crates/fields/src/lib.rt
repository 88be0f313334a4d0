// Putting a number into a field: of a word, of one word of a buffer, or of the first word of each of some packets.
#![tactic(auto)]

ghost use Rattle.std.specs.Prelude.{◌≡◌, ◌^◌, ◌≤◌, leb};
ghost use Rattle.fields.specs.Puts.{put_if_fits, put_in, put_each};

use counts::{PacketNumber, WordNumber, first_word};
use text::packets::packets_of;

// The bits of one number in a word: the lowest, and how many.
#[derive(Clone, Copy)]
pub struct Bits {
    pub low: usize,
    pub width: usize,
}

// 2 to the power of `k`.
fn power_of_two(k: usize) -> u64
    requires { k ≤ 32 }
    ensures { result ≡ 2 ^ k }
{
    1 << k
}

impl Bits {
    // Whether `v` needs more bits than these.
    pub fn too_large(self, v: u32) -> bool
        ensures { result ≡ leb (2 ^ self.width) v }
    {
        self.width < 32 && power_of_two(self.width) <= v as u64
    }

    // The word with `v` in these bits. Unchanged if that is impossible.
    pub fn put(self, w: u32, v: u32) -> u32
        ensures { result ≡ put_if_fits w self.low self.width v }
    {
        if 32 < self.low || 32 - self.low < self.width || self.too_large(v) {
            return w;
        }
        let x = w as u64;
        let low = power_of_two(self.low);
        let top = power_of_two(self.low + self.width);
        (x / top * top + v as u64 * low + x % low) as u32
    }
}

// The same in one word of a buffer.
#[tactic(auto, unfolding(crate::specs::Puts::put_in))]
pub fn put_field(words: &mut [u32], word: WordNumber, bits: Bits, v: u32)
    ensures { words.new ≡ put_in word.0 bits.low bits.width v words.old }
{
    let i = word.0;
    if i < words.len() {
        words[i] = bits.put(words[i], v);
    }
}

// The same in the first word of each of some packets.
#[tactic(auto, unfolding(crate::specs::Puts::put_each, text::specs::Written::each_first))]
pub fn put_each(words: &mut [u32], packets: PacketNumber, bits: Bits, v: u32)
    ensures { words.new ≡ put_each packets.0 bits.low bits.width v words.old }
{
    if packets_of(words) < packets {
        return;
    }
    for p in 0..packets.0 {
        let k = first_word(PacketNumber(p)).0;
        words[k] = bits.put(words[k], v);
    }
}
