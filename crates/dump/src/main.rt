// Lists the big-endian words of standard input: document 01's listing program.
// It always ends with status 0: what goes wrong is told on standard error.
#![tactic(auto)]

use std::env::{Env, FillError};
use std::io::Read;
use whole_input::{bytes_read, read_full};

fn list_input(rt: &(impl Print + Eprint), stdin: &mut impl Read) {
    // One byte more than is listed, to see whether there is more.
    let mut input = [0u8; 32769];
    let read = read_full(stdin, &mut input);
    if read.is_err() {
        let _ = rt.eprintln("dump: the input could not be read");
    }
    let mut out = [0u8; listing::LISTING_ROOM];
    let r = listing::list(&input[..bytes_read(read)], &mut out);
    if rt.write_all(&out[..r]).is_err() {
        let _ = rt.eprintln("dump: the output could not be written");
    }
}

// Whether a word follows the program's name, an empty one too.
fn has_words(env: &impl Env) -> bool {
    let mut word = [0u8; 1];
    match env.arg(1, &mut word) {
        Err(FillError::NotPresent) => false,
        _ => true,
    }
}

fn main(rt: HostRuntime) {
    // Who asks for help or names a file is told how to use the program.
    if has_words(&rt) {
        let _ = rt.eprintln("use: dump < CAPTURE (big-endian words, at most 32,768 bytes)");
        return;
    }
    list_input(&rt, &mut rt.stdin());
}
