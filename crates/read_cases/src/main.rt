// Runs stored cases through reading one message, and prints two lines for each: what is read, and the text that a lent text place
// hands out, of any slice, with the packet and byte number where the place is left. Standard input has each case as the count of its words
// in sixteen bits and then the words, big-endian. Most cases and their answers come from an independent reading of document 01;
// the last ones are 64 and 65 packets, and each refusal with its place.
#![tactic(auto)]

mod cases;
mod lent;

use ascii_lines::Writer;
use cases::Cases;
use lent::put_lent;
use std::io;
use whole_input::{bytes_read, read_full};

// The lines of one case.
fn put_case(writer: &mut Writer, bytes: &[u8]) {
    let mut words = [0u32; 512];
    let n = listing::words::read_words(bytes, &mut words);
    listing::one::show(writer, &words[..n]);
    writer.put_byte(b'\n');
    put_lent(writer, &words[..n]);
    writer.put_byte(b'\n');
}

fn put_cases(writer: &mut Writer, cases: Cases<'_>) {
    for bytes in cases {
        put_case(writer, bytes);
    }
}

fn main(rt: HostRuntime) -> io::Result<()> {
    let mut input = [0u8; 65536];
    let n = bytes_read(read_full(&mut rt.stdin(), &mut input));
    let mut page = [0u8; 65536];
    let mut writer = Writer::new(&mut page);
    put_cases(&mut writer, Cases(&input[..n]));
    rt.write_all(writer.written())
}
