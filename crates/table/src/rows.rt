// One row for each kind, and the kind of a status.
ghost use Rattle.std.specs.Prelude.{◌≡◌, ◌+◌, ◌*◌};
ghost use Rattle.kinds.specs.Layout.{layout, kind_of};
ghost use Rattle.table.specs.Rows.{RowIs, fixed_row, text_row, table_row};

use kinds::kind::Kind;

#[derive(Clone, Copy)]
pub struct Row {
    pub status: u32,
    // The most packets that a message may have: 1 for a fixed kind, 64 for a text kind.
    pub most_packets: usize,
    // How many octets after octet 2 the text starts: 1 where each packet also has a block number.
    pub text_offset: usize,
    // The number of the kind's first slot among the slots of all kinds, and how many it has.
    pub first_slot: usize,
    pub slots: usize,
    // The field bits of a fresh message's first word.
    pub start: u32,
}

fn fixed(status: u32, first_slot: usize, slots: usize, start: u32) -> Row
    ensures { RowIs (fixed_row status first_slot slots start) result }
{
    Row {
        status,
        most_packets: 1,
        text_offset: 0,
        first_slot,
        slots,
        start,
    }
}

fn text(status: u32, first_slot: usize, slots: usize, offset: usize) -> Row
    ensures { RowIs (text_row status first_slot slots offset) result }
{
    Row {
        status,
        most_packets: 64,
        text_offset: offset,
        first_slot,
        slots,
        start: 0,
    }
}

// The order is that of the definition.
#[tactic(auto, unfolding(crate::proofs::RowLaws::computed))]
pub fn row_of(kind: Kind) -> Row
    ensures { RowIs (table_row kind) result }
{
    match kind {
        Kind::EndpointDiscovery => fixed(0x00, 0, 7, 0),
        Kind::EndpointInfo => fixed(0x01, 7, 8, 0),
        Kind::DeviceIdentity => fixed(0x02, 15, 11, 0),
        Kind::EndpointName => text(0x03, 26, 0, 0),
        Kind::ProductInstanceId => text(0x04, 26, 0, 0),
        Kind::FunctionBlockInfo => fixed(0x11, 26, 9, 3),
        Kind::FunctionBlockName => text(0x12, 35, 1, 1),
    }
}

// The first word of a kind without its fields: type F, format Complete and the status.
#[tactic(auto, using(crate::proofs::RowLaws::row_small))]
pub fn head_of(kind: Kind) -> u32
    ensures { result ≡ 0xF000_0000 + (layout kind).status * 0x1_0000 }
{
    let row = row_of(kind);
    0xF000_0000 + row.status * 0x1_0000
}

#[tactic(auto, unfolding(kinds::specs::Layout::layout, kinds::specs::Layout::among))]
pub fn kind_of(status: u32) -> Option<Kind>
    ensures { result ≡ kind_of status }
{
    match status {
        0x00 => Some(Kind::EndpointDiscovery),
        0x01 => Some(Kind::EndpointInfo),
        0x02 => Some(Kind::DeviceIdentity),
        0x03 => Some(Kind::EndpointName),
        0x04 => Some(Kind::ProductInstanceId),
        0x11 => Some(Kind::FunctionBlockInfo),
        0x12 => Some(Kind::FunctionBlockName),
        _ => None,
    }
}
