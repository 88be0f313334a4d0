// What came of a run: settings made, accepted, refused, how often the words differed, and those refused by 3, 11, 12, 13, 14 and others.
use kinds::refusal::Refusal;
use std::fmt;

// On a fresh message only those five refusals come.
#[derive(Clone, Copy, Default)]
pub(crate) struct Tally {
    made: u64,
    accepted: u64,
    refused: u64,
    differed: u64,
    too_many_packets: u64,
    not_utf8: u64,
    number_too_large: u64,
    no_such_field: u64,
    no_room: u64,
    others: u64,
}

fn count(n: &mut u64) {
    *n = n.saturating_add(1);
}

fn sum(a: u64, b: u64) -> u64 {
    a.saturating_add(b)
}

impl Tally {
    fn refuse(&mut self, refusal: Refusal) {
        count(&mut self.refused);
        // By number, as the columns are named, so that the refusal numbers of the crate kinds are held to the stored lines.
        match refusal.number() {
            3 => count(&mut self.too_many_packets),
            11 => count(&mut self.not_utf8),
            12 => count(&mut self.number_too_large),
            13 => count(&mut self.no_such_field),
            14 => count(&mut self.no_room),
            _ => count(&mut self.others),
        }
    }

    // A setting more, and whether the words were the same after it.
    pub(crate) fn tell(&mut self, answer: Result<(), Refusal>, same: bool) {
        count(&mut self.made);
        match answer {
            Ok(()) => count(&mut self.accepted),
            Err(refusal) => self.refuse(refusal),
        }
        if !same {
            count(&mut self.differed);
        }
    }

    // What came of both runs.
    pub(crate) fn and(self, other: Tally) -> Tally {
        Tally {
            made: sum(self.made, other.made),
            accepted: sum(self.accepted, other.accepted),
            refused: sum(self.refused, other.refused),
            differed: sum(self.differed, other.differed),
            too_many_packets: sum(self.too_many_packets, other.too_many_packets),
            not_utf8: sum(self.not_utf8, other.not_utf8),
            number_too_large: sum(self.number_too_large, other.number_too_large),
            no_such_field: sum(self.no_such_field, other.no_such_field),
            no_room: sum(self.no_room, other.no_room),
            others: sum(self.others, other.others),
        }
    }
}

impl fmt::Display for Tally {
    fn fmt<W: fmt::Write>(&self, f: &mut fmt::Formatter<W>) -> fmt::Result {
        write!(
            f,
            "{} {} {} {} {} {} {} {} {} {}",
            self.made,
            self.accepted,
            self.refused,
            self.differed,
            self.too_many_packets,
            self.not_utf8,
            self.number_too_large,
            self.no_such_field,
            self.no_room,
            self.others
        )
    }
}
