// Writing ASCII into a lent buffer. What does not fit is dropped, and the place stays at the end.
// No `Display`: each contract says which bytes the buffer holds then, full or not.
#![tactic(auto)]

ghost use Rattle.std.specs.Prelude.{◌≡◌, [], ◌∷◌, ◌++◌, ◌<◌, length, slice_set, take};
ghost use Rattle.ascii_lines.specs.Page.{Opens, OpensAt, Puts, Wrote};
ghost use Rattle.ascii_lines.specs.Numbers.{decimal, digit, hex_byte, hex_word, number, numbers};

// `0` to `9`, then `a` to `f`.
fn digit(n: u8) -> u8
    requires { n < 16 }
    ensures { result ≡ digit n }
{
    if n < 10 {
        return b'0' + n;
    }
    b'a' - 10 + n
}

// How many decimal digits a number has.
fn digits_of(n: u64) -> usize
    ensures { result ≡ length (decimal n) }
{
    match n.checked_ilog10() {
        None => 1,
        Some(power) => power as usize + 1,
    }
}

// Stores a byte, if the buffer reaches so far.
fn store(out: &mut [u8], place: usize, byte: u8)
    ensures { out.new ≡ slice_set out.old place byte }
{
    if place < out.len() {
        out[place] = byte;
    }
}

// What moves on through the buffer takes the slice and the place by value: a byte stored through `&mut self` makes LLVM read both fields again.
// Stores a byte at a place; gives the place after it.
fn store_byte(out: &mut [u8], at: usize, byte: u8) -> usize
    ensures { Wrote at out.old (byte ∷ []) result out.new }
{
    if at < out.len() {
        out[at] = byte;
        return at + 1;
    }
    at
}

// Stores the bytes of a text from a place on; gives the place after them. It stops where the buffer is full, since looking at each byte that is dropped costs time.
fn store_text(out: &mut [u8], at: usize, text: &[u8]) -> usize
    ensures { Wrote at out.old text.now result out.new }
{
    let mut end = at;
    for &byte in text {
        if out.len() <= end {
            return end;
        }
        end = store_byte(out, end, byte);
    }
    end
}

// Stores a number in decimal from a place on; gives the place after it. The digits are stored from the last to the first, the order in which division gives them.
fn store_decimal(out: &mut [u8], at: usize, n: u64) -> usize
    ensures { Wrote at out.old (decimal n) result out.new }
{
    if out.len() <= at {
        return at;
    }
    let count = digits_of(n);
    let mut rest = n;
    for i in (0..count).rev() {
        store(out, at + i, digit((rest % 10) as u8));
        rest /= 10;
    }
    out.len().min(at + count)
}

// Stores a space and a number in decimal from a place on; gives the place after them.
fn store_number(out: &mut [u8], at: usize, n: u64) -> usize
    ensures { Wrote at out.old (number n) result out.new }
{
    let end = store_byte(out, at, b' ');
    store_decimal(out, end, n)
}

// Stores each number in decimal, with a space before it, from a place on; gives the place after them.
fn store_numbers(out: &mut [u8], at: usize, ns: &[u64]) -> usize
    ensures { Wrote at out.old (numbers ns.now) result out.new }
{
    let mut end = at;
    for &n in ns {
        end = store_number(out, end, n);
    }
    end
}

// A lent buffer, and the place in it where the next byte goes.
#[derive(Drop)]
pub struct Writer<'a> {
    out: &'a mut [u8],
    at: usize,
}

impl<'a> Writer<'a> {
    // Writing begins at the start of the buffer.
    pub fn new(out: &'a mut [u8]) -> Writer<'a>
        ensures { Opens out.entry result }
    {
        Writer { out, at: 0 }
    }

    // Writing begins at a place of the buffer; from a place past its end nothing is written.
    pub fn new_at(out: &'a mut [u8], at: usize) -> Writer<'a>
        ensures { OpensAt out.entry at result }
    {
        Writer { out, at }
    }

    // The place after what was written.
    pub fn end(&self) -> usize
        ensures { result ≡ self.now.at }
    {
        self.at
    }

    // What was written.
    pub fn written(&self) -> &[u8]
        ensures { result.now ≡ take self.now.at self.now.out.now }
    {
        &self.out[..self.at.min(self.out.len())]
    }

    // Writes one byte.
    pub fn put_byte(&mut self, byte: u8)
        ensures { Puts self.old (byte ∷ []) self.new }
    {
        self.at = store_byte(self.out, self.at, byte);
    }

    // Writes the bytes of a text.
    pub fn put_text(&mut self, text: &[u8])
        ensures { Puts self.old text.now self.new }
    {
        self.at = store_text(self.out, self.at, text);
    }

    // Writes a number in decimal.
    pub fn put_decimal(&mut self, n: u64)
        ensures { Puts self.old (decimal n) self.new }
    {
        self.at = store_decimal(self.out, self.at, n);
    }

    // Writes a byte's two digits in lower-case hex.
    pub fn put_hex(&mut self, byte: u8)
        ensures { Puts self.old (hex_byte byte) self.new }
    {
        self.put_byte(digit(byte / 16));
        self.put_byte(digit(byte % 16));
    }

    // Writes a word's eight digits in lower-case hex.
    pub fn put_word(&mut self, word: u32)
        ensures { Puts self.old (hex_word word) self.new }
    {
        for byte in word.to_be_bytes() {
            self.put_hex(byte);
        }
    }

    // Writes a space and a number in decimal.
    pub fn put_number(&mut self, n: u64)
        ensures { Puts self.old (number n) self.new }
    {
        self.at = store_number(self.out, self.at, n);
    }

    // Writes each number in decimal, with a space before it.
    pub fn put_numbers(&mut self, ns: &[u64])
        ensures { Puts self.old (numbers ns.now) self.new }
    {
        self.at = store_numbers(self.out, self.at, ns);
    }

    // Writes a name, and numbers after it.
    pub fn put_named(&mut self, name: &[u8], ns: &[u64])
        ensures { Puts self.old (name.now ++ numbers ns.now) self.new }
    {
        self.put_text(name);
        self.put_numbers(ns);
    }
}
