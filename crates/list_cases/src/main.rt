// Runs stored inputs through the listing, and prints each listing. Standard input has each case as the count of its bytes in
// thirty-two bits, big-endian, and then the bytes. The cases and their listings come from an independent reading of document 01;
// the last are 32,768 bytes, one more, every kind, every other type, and every refusal that a walk gives.
#![tactic(auto)]

mod cases;

use cases::Cases;
use std::io;
use whole_input::{bytes_read, read_full};

// Prints the listing of each case, all from one page: a page of its own for each would be cleared each time.
fn print_cases(rt: &impl Print, cases: Cases<'_>, page: &mut [u8]) -> io::Result<()> {
    for bytes in cases {
        let r = listing::list(bytes, page);
        rt.write_all(&page[..r])?;
    }
    Ok(())
}

fn main(rt: HostRuntime) -> io::Result<()> {
    let mut input = [0u8; 131072];
    let n = bytes_read(read_full(&mut rt.stdin(), &mut input));
    let mut page = [0u8; listing::LISTING_ROOM];
    print_cases(&rt, Cases(&input[..n]), &mut page)
}
