// The last accepted value of each field, pseudo-random values to be tried, and the pool that texts are parts of.
ghost use Rattle.std.specs.Prelude.{◌<◌};

use kinds::kind::Kind;

// The bytes that texts to be tried are parts of.
pub(crate) type Pool = [u8; 1000];

// Numbers in the order of the table of fields, and a text.
#[derive(Clone, Copy)]
pub(crate) struct Values<'a> {
    pub numbers: [u32; 9],
    pub text: &'a [u8],
}

impl<'a> Values<'a> {
    // A fresh message's values, but for its first number: block info's direction is the third choice, all else 0, and text empty.
    pub(crate) fn starting(kind: Kind, first: u32) -> Values<'a> {
        let direction = match kind {
            Kind::FunctionBlockInfo => 2,
            _ => 0,
        };
        Values {
            numbers: [first, 0, 0, 0, direction, 0, 0, 0, 0],
            text: b"",
        }
    }

    // The values with a new number i.
    pub(crate) fn with_number(mut self, i: usize, x: u64) -> Values<'a> {
        if let Some(n) = self.numbers.get_mut(i) {
            *n = number(x);
        }
        self
    }

    // The values with another part of the pool as text.
    pub(crate) fn with_text(mut self, pool: &'a Pool, x: u64) -> Values<'a> {
        let from = (x % 64) as usize;
        let to = from + bytes(next(x));
        self.text = &pool[from..to];
        self
    }
}

// The next number of a row that looks random.
pub(crate) fn next(x: u64) -> u64
    ensures { result < 2147483647 }
{
    (x % 2147483647 * 48271 + 11) % 2147483647
}

// A number to be tried: half of them at an edge of 4, 7, 8 or 14 bits, one in sixteen anywhere, the others below an edge.
fn number(x: u64) -> u32 {
    let n = (x % 4294967296) as u32;
    match next(x) % 16 {
        0 | 1 => 14 + n % 4,
        2 | 3 => 126 + n % 4,
        4 | 5 => 254 + n % 4,
        6 | 7 => 16382 + n % 4,
        8..=10 => n % 16,
        11 | 12 => n % 128,
        13 => n % 256,
        14 => n % 16384,
        _ => n,
    }
}

// Bytes of a text to be tried: one in eight about what 64 packets hold, the others up to many packets, ten, or two.
fn bytes(x: u64) -> usize
    ensures { result < 930 }
{
    let n = x / 8;
    let most = match x % 8 {
        0 => 820 + n % 110,
        1 => n % 900,
        2..=4 => n % 130,
        _ => n % 28,
    };
    most as usize
}

// Characters of one to four bytes and a zero byte, again and again.
pub(crate) fn made_pool() -> Pool {
    let text =
        b"Main mix \x00 Zo\xC3\xAB 5 \xE2\x82\xAC, \xE6\x97\xA5\xE6\x9C\xAC, piano \xF0\x9F\x8E\xB9 left. ";
    std::array::from_fn(|i| text[i % 48])
}
