// Asks the library what the given Rust was asked, and prints a line for each answer; the stored lines are the Rust's own answers.
// A case is a byte for what is asked, two counts in sixteen bits (words, bytes), the words and the bytes, all big-endian. Asked is
// 0x00: read the words as one message; 0x03, 0x04, 0x12: set the bytes as that kind's text; 0x13: set them as the block number.
// Made by: compare/build FOLDER && target/compare/lib/driver replay 450 1 crates/oracle_cases
#![tactic(auto)]

mod cases;

use ascii_lines::Writer;
use cases::{Asked, Case, Cases, Field};
use kinds::refusal::Refusal;
use std::io;
use text_settings::{endpoint_name, function_block_name, product_instance_id};
use whole_input::{bytes_read, read_full};

fn put_words(writer: &mut Writer, words: &[u32]) {
    for &word in words {
        writer.put_byte(b' ');
        writer.put_word(word);
    }
}

// The Rust has sentences for refusals and no numbers, so none is printed.
fn put_refused(writer: &mut Writer) {
    writer.put_text(b" refused");
}

// What the listing says of the message.
fn put_read(writer: &mut Writer, words: &[u32]) {
    match reading::message::read(words) {
        Ok(_) => listing::one::show(writer, words),
        Err(_) => put_refused(writer),
    }
}

// The first four bytes are the number; fewer give 0.
fn set_number(words: &mut [u32], data: &[u8]) -> Result<(), Refusal> {
    let number = data
        .first_chunk::<4>()
        .map_or(0, |b| u32::from_be_bytes(*b));
    function_block_name::set_function_block(words, number)
}

fn set(words: &mut [u32], field: Field, data: &[u8]) -> Result<(), Refusal> {
    match field {
        Field::EndpointName => endpoint_name::set_name(words, data),
        Field::ProductInstanceId => product_instance_id::set_id(words, data),
        Field::FunctionBlockName => function_block_name::set_name(words, data),
        Field::BlockNumber => set_number(words, data),
    }
}

// The words as a setting leaves them.
fn put_set(writer: &mut Writer, words: &mut [u32], field: Field, data: &[u8]) {
    match set(words, field, data) {
        Ok(()) => {
            writer.put_text(b" done");
            put_words(writer, words);
        }
        Err(_) => put_refused(writer),
    }
}

// The line of one case.
fn put_case(writer: &mut Writer, case: Case<'_>) {
    let mut words = [0u32; 512];
    let n = listing::words::read_words(case.words, &mut words);
    match case.asked {
        Some(Asked::Read) => put_read(writer, &words[..n]),
        Some(Asked::Set(field)) => put_set(writer, &mut words[..n], field, case.data),
        None => put_refused(writer),
    }
    writer.put_byte(b'\n');
}

fn put_cases(writer: &mut Writer, cases: Cases<'_>) {
    for case in cases {
        put_case(writer, case);
    }
}

fn main(rt: HostRuntime) -> io::Result<()> {
    let mut input = [0u8; 65536];
    let n = bytes_read(read_full(&mut rt.stdin(), &mut input));
    let mut page = [0u8; 65536];
    let mut writer = Writer::new(&mut page);
    put_cases(&mut writer, Cases(&input[..n]));
    rt.write_all(writer.written())
}
