// Chains settings on the record of each kind, and writes the record. A line has the status, the number that the chain goes up from, the chain's
// answer, what writing the record answers, the record's packets and nine numbers, and the four words that were written into.
#![tactic(auto)]

mod chain;

use ascii_lines::Writer;
use chain::{case_eleven, every, own};
use kinds::kind::Kind;
use kinds::refusal::Refusal;
use numbers::Numbers;
use numbers::of_record::numbers_of;
use reading::message::read;
use records::answers::Edited;
use records::message::Message;
use std::io;
use table::rows::row_of;
use writing::fresh::fresh;
use writing::write::write;

// Refusal number, or 0.
fn number_of(answer: Result<(), Refusal>) -> u32 {
    match answer {
        Ok(()) => 0,
        Err(refusal) => refusal.number(),
    }
}

// The record's packets and nine numbers.
fn put_record(writer: &mut Writer, n: Numbers) {
    writer.put_numbers(&[
        n.packets as u64,
        u64::from(n.first),
        u64::from(n.second),
        u64::from(n.third),
        u64::from(n.fourth),
        u64::from(n.fifth),
        u64::from(n.sixth),
        u64::from(n.seventh),
        u64::from(n.eighth),
        u64::from(n.ninth),
    ]);
}

fn put_words(writer: &mut Writer, words: [u32; 4]) {
    for word in words {
        writer.put_byte(b' ');
        writer.put_word(word);
    }
}

// A line: what was chained, on which status, from which number; the answers, the record, and the words that it was written into.
// By the writer and no `Display`, which would double the instructions of a run.
fn put_line(writer: &mut Writer, name: &[u8], status: u32, n: u16, edited: Edited) {
    let mut words = [0x11111111u32; 4];
    let written = number_of(write(&mut words, edited.message));
    let answer = number_of(edited.answer);
    let ns = [
        u64::from(status),
        u64::from(n),
        u64::from(answer),
        u64::from(written),
    ];
    writer.put_named(name, &ns);
    put_record(writer, numbers_of(edited.message));
    put_words(writer, words);
    writer.put_byte(b'\n');
}

// A fresh record of the kind with this status, as reading gives it.
fn started(status: u32) -> Result<Message, Refusal> {
    let mut words = [0u32; 4];
    fresh(&mut words, status)?;
    read(&words)
}

// The lines of a kind at one number: its own settings, then those of all kinds.
fn put_kind(writer: &mut Writer, kind: Kind, status: u32, n: u16) {
    let Ok(message) = started(status) else {
        return;
    };
    let first = Edited {
        message,
        answer: Ok(()),
    };
    let table_status = row_of(kind).status;
    put_line(writer, b"own", table_status, n, own(first, kind, n));
    put_line(writer, b"every", table_status, n, every(first, n));
}

// The line of document 01's case 11.
fn put_case(writer: &mut Writer) {
    let Ok(message) = started(0x01) else {
        return;
    };
    put_line(writer, b"case", 1, 11, case_eleven(message));
}

// The lines of all kinds at one number. A record is begun by the status listed here, and its line shows the table's, so that a swap in either shows.
fn put_at(writer: &mut Writer, n: u16) {
    for (kind, status) in [
        (Kind::EndpointDiscovery, 0x00),
        (Kind::EndpointInfo, 0x01),
        (Kind::DeviceIdentity, 0x02),
        (Kind::EndpointName, 0x03),
        (Kind::ProductInstanceId, 0x04),
        (Kind::FunctionBlockInfo, 0x11),
        (Kind::FunctionBlockName, 0x12),
    ] {
        put_kind(writer, kind, status, n);
    }
}

// Each flag by itself, then numbers that pass the largest of 4, 7, 8, 14 bits and of doubled 14 bits in the middle of a chain.
fn put_all(writer: &mut Writer) {
    put_case(writer);
    for n in [
        1u16, 2, 4, 8, 16, 12, 13, 120, 125, 127, 251, 255, 8191, 8192, 16380, 65535,
    ] {
        put_at(writer, n);
    }
}

// All lines go out in one write, so that a reader may stop after the first of them.
fn main(rt: HostRuntime) -> io::Result<()> {
    let mut page = [0u8; 32768];
    let mut writer = Writer::new(&mut page);
    put_all(&mut writer);
    rt.write_all(writer.written())
}
