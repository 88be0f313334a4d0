// The first word of a packet: type, format and status.
ghost use Rattle.std.specs.Prelude.{◌≡◌};
ghost use Rattle.standard.specs.Heads.{type_of, format_of, status_of};

#[tactic(auto, unfolding(bit_ops::specs::Parts::part_in))]
pub fn type_of(word: u32) -> u8
    ensures { result ≡ type_of word }
{
    bit_ops::nibble(word, 0)
}

// As a number, since it is compared with the format due.
#[tactic(auto, unfolding(bit_ops::specs::Parts::part_in))]
pub fn format_of(word: u32) -> u8
    ensures { result ≡ format_of word }
{
    bit_ops::crumb(word, 2)
}

// The ten bits under 0x03FF_0000.
pub fn status_of(word: u32) -> u32
    ensures { result ≡ status_of word }
{
    word / 0x1_0000 % 0x400
}
