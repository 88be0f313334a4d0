// A record as numbers and back: what crosses to C, and what the listing and writing go over.
// A kind goes beside the numbers of a record, since numbers from C may be of another kind or of none.
#![tactic(auto)]

pub mod by_slot;
pub mod in_slots;
pub mod of_record;
pub mod set_one;
pub mod to_record;

// A record's status, its packets, and its fields in the table's order; 0 past the kind's last.
#[repr(C)]
#[derive(Clone, Copy)]
pub struct Numbers {
    pub status: u32,
    pub packets: usize,
    pub first: u32,
    pub second: u32,
    pub third: u32,
    pub fourth: u32,
    pub fifth: u32,
    pub sixth: u32,
    pub seventh: u32,
    pub eighth: u32,
    pub ninth: u32,
    pub reserved: Reserved,
}

// Room for later fields, so that the struct keeps its size for C: 0 in every answer, and never looked at.
#[repr(C)]
#[derive(Clone, Copy)]
pub struct Reserved(pub u32, pub u32, pub u32, pub u32, pub u32);
