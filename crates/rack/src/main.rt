// A rack of renames: long runs of settings, accepted and refused, on each kind in buffers of several sizes with odd tails.
// After every setting the words are held to a fresh message that is set once to the last accepted value of each field.
#![tactic(auto)]

mod apply;
mod planted;
mod run;
mod tally;
mod values;

use kinds::kind::Kind;
use planted::plant_each;
use run::{Plan, run};
use std::io::{self, Cursor, Write};
use tally::Tally;
use values::{Pool, made_pool};

// A run in the first n words of a buffer, at most 263: sixty-five packets and a tail of three words.
fn in_words(n: usize, plan: Plan, pool: &Pool) -> Tally {
    let mut words = [0u32; 263];
    let mut again = [0u32; 263];
    let n = n.min(263);
    run(plan, pool, &mut words[..n], &mut again[..n])
}

// Settings of any field, one in eight of another kind, in buffers of one to sixty-five packets, most with a tail.
fn mixed(kind: Kind, pool: &Pool) -> Tally {
    let plan = Plan {
        kind,
        only: None,
        first: 0,
        count: 10000,
    };
    let mut tally = Tally::default();
    for n in [4, 7, 13, 34, 263] {
        tally = tally.and(in_words(n, plan, pool));
    }
    tally
}

// A year of one rename a minute, on block name 5.
fn renames(pool: &Pool) -> Tally {
    let plan = Plan {
        kind: Kind::FunctionBlockName,
        only: Some(1),
        first: 5,
        count: 525600,
    };
    in_words(35, plan, pool)
}

// The line of each kind, and the tally of all.
fn print_mixed(page: &mut impl Write, pool: &Pool) -> io::Result<Tally> {
    let mut all = Tally::default();
    for (name, kind) in [
        ("endpoint-discovery", Kind::EndpointDiscovery),
        ("endpoint-info", Kind::EndpointInfo),
        ("device-identity", Kind::DeviceIdentity),
        ("endpoint-name", Kind::EndpointName),
        ("product-instance-id", Kind::ProductInstanceId),
        ("function-block-info", Kind::FunctionBlockInfo),
        ("function-block-name", Kind::FunctionBlockName),
    ] {
        let tally = mixed(kind, pool);
        writeln!(page, "{name} {tally}")?;
        all = all.and(tally);
    }
    Ok(all)
}

// As many of the planted differences differ as are planted. A line is what was run, and its tally.
fn print_all(page: &mut impl Write) -> io::Result<()> {
    let pool = made_pool();
    writeln!(
        page,
        "run made accepted refused differed by-3 by-11 by-12 by-13 by-14 by-others"
    )?;
    writeln!(page, "planted {}", plant_each(&pool))?;
    let mixed = print_mixed(page, &pool)?;
    let renames = renames(&pool);
    writeln!(page, "renames-of-a-year {renames}")?;
    writeln!(page, "all {}", mixed.and(renames))
}

// All lines go out in one write, so that a reader may stop after the first of them.
fn main(rt: HostRuntime) -> io::Result<()> {
    let mut page = Cursor::new([0u8; 2048]);
    print_all(&mut page)?;
    let end = page.position().min(2048) as usize;
    rt.write_all(&page.get_ref()[..end])
}
