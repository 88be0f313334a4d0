// The parts of a 32-bit word, numbered from the highest. An index out of range reads 0 and writes nothing; a value too large for its part is not written.
#![tactic(auto)]

ghost use Rattle.std.specs.Prelude.{◌≡◌, ◌+◌, ◌^◌, ◌<◌, ◌≤◌, eqb};
ghost use Rattle.laws.specs.Bits.{field_of, put_field};
ghost use Rattle.bit_ops.specs.Parts.{IsPart, parts_of, lowest_bit, part_in, put_part, bit_of};

// The `SPAN` bits from bit `at` on.
fn get_bits<const SPAN: usize>(w: u32, at: usize) -> u32
    requires { (at < 32) × (SPAN < 32) }
    ensures { result ≡ field_of w at SPAN }
{
    (w >> at) % (1 << SPAN)
}

// The word with `v` in these bits.
fn put_bits<const SPAN: usize>(w: u32, at: usize, v: u32) -> u32
    requires { (at < 32) × (SPAN < 32) × (at + SPAN ≤ 32) × (v < 2 ^ SPAN) }
    ensures { result ≡ put_field w at SPAN v }
{
    w - (get_bits::<SPAN>(w, at) << at) + (v << at)
}

// The lowest bit of part `index`.
fn lowest_bit<const STRIDE: usize>(index: usize) -> usize
    requires { index < parts_of STRIDE }
    ensures { result ≡ lowest_bit STRIDE index }
{
    32 - STRIDE * (index + 1)
}

// Part `index`, for any stride and span. `small` lets callers cast it to a narrower type.
fn part<const STRIDE: usize, const SPAN: usize>(w: u32, index: usize) -> u32
    requires { IsPart STRIDE SPAN }
    ensures value { result ≡ part_in STRIDE SPAN w index }
    ensures small { result < 2 ^ SPAN }
{
    if 32 / STRIDE <= index {
        return 0;
    }
    get_bits::<SPAN>(w, lowest_bit::<STRIDE>(index))
}

// The word with part `index` set to `v`.
fn set_part<const STRIDE: usize, const SPAN: usize>(w: u32, index: usize, v: u32) -> u32
    requires { IsPart STRIDE SPAN }
    ensures { result ≡ put_part STRIDE SPAN w index v }
{
    if 32 / STRIDE <= index {
        return w;
    }
    if 1 << SPAN <= v {
        return w;
    }
    put_bits::<SPAN>(w, lowest_bit::<STRIDE>(index), v)
}

// The operations below have the names of the Rust's detail/bit_ops.rs, each one call of `part` or `set_part`: a public generic pair would need a `requires` on its two sizes, and leave the result's width to callers.

// ---- one bit, as a bool
pub fn bit(w: u32, index: usize) -> bool
    ensures { result ≡ eqb (part_in 1 1 w index) 1 }
{
    part::<1, 1>(w, index) == 1
}

pub fn set_bit(w: u32, index: usize, v: bool) -> u32
    ensures { result ≡ put_part 1 1 w index (bit_of v) }
{
    set_part::<1, 1>(w, index, v as u32)
}

// ---- two bits
pub fn crumb(w: u32, index: usize) -> u8
    ensures { result ≡ part_in 2 2 w index }
{
    part::<2, 2>(w, index) as u8
}

pub fn set_crumb(w: u32, index: usize, v: u8) -> u32
    ensures { result ≡ put_part 2 2 w index v }
{
    set_part::<2, 2>(w, index, v as u32)
}

// ---- four bits
pub fn nibble(w: u32, index: usize) -> u8
    ensures { result ≡ part_in 4 4 w index }
{
    part::<4, 4>(w, index) as u8
}

pub fn set_nibble(w: u32, index: usize, v: u8) -> u32
    ensures { result ≡ put_part 4 4 w index v }
{
    set_part::<4, 4>(w, index, v as u32)
}

// ---- the seven low bits of an octet
pub fn septet(w: u32, index: usize) -> u8
    ensures { result ≡ part_in 8 7 w index }
{
    part::<8, 7>(w, index) as u8
}

pub fn set_septet(w: u32, index: usize, v: u8) -> u32
    ensures { result ≡ put_part 8 7 w index v }
{
    set_part::<8, 7>(w, index, v as u32)
}

// ---- eight bits
pub fn octet(w: u32, index: usize) -> u8
    ensures { result ≡ part_in 8 8 w index }
{
    part::<8, 8>(w, index) as u8
}

pub fn set_octet(w: u32, index: usize, v: u8) -> u32
    ensures { result ≡ put_part 8 8 w index v }
{
    set_part::<8, 8>(w, index, v as u32)
}

// ---- sixteen bits
pub fn word(w: u32, index: usize) -> u16
    ensures { result ≡ part_in 16 16 w index }
{
    part::<16, 16>(w, index) as u16
}

pub fn set_word(w: u32, index: usize, v: u16) -> u32
    ensures { result ≡ put_part 16 16 w index v }
{
    set_part::<16, 16>(w, index, v as u32)
}
