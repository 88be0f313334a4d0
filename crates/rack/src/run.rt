// A run of settings on one kind, and what came of them.
ghost use Rattle.std.specs.Prelude.{◌<◌, ◌≤◌};

use crate::apply::apply;
use crate::tally::Tally;
use crate::values::{Pool, Values, next};
use kinds::kind::Kind;

// The kinds in the order of their status.
const KINDS: [Kind; 7] = [
    Kind::EndpointDiscovery,
    Kind::EndpointInfo,
    Kind::DeviceIdentity,
    Kind::EndpointName,
    Kind::ProductInstanceId,
    Kind::FunctionBlockInfo,
    Kind::FunctionBlockName,
];

// So many settings on a fresh message of a kind with its first number set: of one field only, else of any field.
#[derive(Clone, Copy)]
pub(crate) struct Plan {
    pub kind: Kind,
    pub only: Option<usize>,
    pub first: u32,
    pub count: u64,
}

// The statuses stand here, so that those of the table, which every setting goes by, are held to them.
fn status(kind: Kind) -> u32 {
    match kind {
        Kind::EndpointDiscovery => 0x00,
        Kind::EndpointInfo => 0x01,
        Kind::DeviceIdentity => 0x02,
        Kind::EndpointName => 0x03,
        Kind::ProductInstanceId => 0x04,
        Kind::FunctionBlockInfo => 0x11,
        Kind::FunctionBlockName => 0x12,
    }
}

// How many fields a kind has.
fn fields(kind: Kind) -> usize
    ensures { (1 ≤ result) × (result < 10) }
{
    match kind {
        Kind::EndpointDiscovery => 7,
        Kind::EndpointInfo => 8,
        Kind::DeviceIdentity => 4,
        Kind::EndpointName | Kind::ProductInstanceId => 1,
        Kind::FunctionBlockInfo => 9,
        Kind::FunctionBlockName => 2,
    }
}

// A number of a field: a manufacturer has three, a software version four.
fn number_of(kind: Kind, field: usize, x: u64) -> usize {
    match (kind, field) {
        (Kind::DeviceIdentity, 0) => (x % 3) as usize,
        (Kind::DeviceIdentity, 1) => 3,
        (Kind::DeviceIdentity, 2) => 4,
        (Kind::DeviceIdentity, _) => (5 + x % 4) as usize,
        _ => field,
    }
}

fn is_text(kind: Kind, field: usize) -> bool {
    match kind {
        Kind::EndpointName | Kind::ProductInstanceId => true,
        Kind::FunctionBlockName => field == 1,
        _ => false,
    }
}

// The word found at a place.
fn found(i: usize) -> u32 {
    (next(i as u64) * 2) as u32
}

fn fill(words: &mut [u32]) {
    for (i, word) in words.iter_mut().enumerate() {
        *word = found(i);
    }
}

// Whether all words are the same, and those after the last whole packet as found.
pub(crate) fn same(words: &[u32], again: &[u32]) -> bool {
    let whole = words.len() / 4 * 4;
    words == again
        && words
            .iter()
            .enumerate()
            .skip(whole)
            .all(|(i, &word)| word == found(i))
}

// A fresh message in words as found.
fn begin(words: &mut [u32], kind: Kind) {
    fill(words);
    let _ = writing::fresh::fresh(words, status(kind));
}

// A fresh message with each field set once.
pub(crate) fn build(words: &mut [u32], kind: Kind, values: Values<'_>) {
    begin(words, kind);
    for field in 0..fields(kind) {
        let _ = apply(words, kind, field, values);
    }
}

// How far a run has come: the last accepted values, the random row, and the tally.
#[derive(Clone, Copy)]
struct Progress<'p> {
    plan: Plan,
    pool: &'p Pool,
    values: Values<'p>,
    x: u64,
    tally: Tally,
}

impl<'p> Progress<'p> {
    // One in eight settings is of another kind.
    fn kind_tried(&self, x: u64) -> Kind {
        if self.plan.only.is_some() || x % 8 != 0 {
            return self.plan.kind;
        }
        KINDS[(self.plan.kind as usize + 1 + (x / 8 % 6) as usize) % 7]
    }

    fn field_tried(&self, kind: Kind, x: u64) -> usize {
        match self.plan.only {
            Some(field) => field,
            None => (x % fields(kind) as u64) as usize,
        }
    }

    fn values_tried(&self, kind: Kind, field: usize, x: u64) -> Values<'p> {
        if is_text(kind, field) {
            return self.values.with_text(self.pool, x);
        }
        self.values.with_number(number_of(kind, field, x), next(x))
    }

    // One setting more. One of another kind leaves the last accepted values.
    fn one_more(&mut self, words: &mut [u32], again: &mut [u32]) {
        let own = self.plan.kind;
        let x = next(self.x);
        let kind = self.kind_tried(x);
        let y = next(x);
        let field = self.field_tried(kind, y);
        let z = next(y);
        let tried = self.values_tried(kind, field, z);
        let answer = apply(words, kind, field, tried);
        if answer.is_ok() && kind == own {
            self.values = tried;
        }
        self.x = z;
        build(again, own, self.values);
        self.tally.tell(answer, same(words, again));
    }
}

pub(crate) fn run(plan: Plan, pool: &Pool, words: &mut [u32], again: &mut [u32]) -> Tally {
    let kind = plan.kind;
    let values = Values::starting(kind, plan.first);
    begin(words, kind);
    let _ = apply(words, kind, 0, values);
    let x = (words.len() * 7 + kind as usize) as u64;
    let mut progress = Progress {
        plan,
        pool,
        values,
        x,
        tally: Tally::default(),
    };
    for _ in 0..plan.count {
        progress.one_more(words, again);
    }
    progress.tally
}
