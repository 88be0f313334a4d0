// One packet of four words.

#[derive(Clone, Copy)]
pub struct Packet(pub u32, pub u32, pub u32, pub u32);
