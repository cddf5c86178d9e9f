// Packet types: each number in turn, looked up in the table or by the match.
use family::Family;
use measure::checksum::Sum;
use packet_types::{Entry, L4, packet_type};
use type_match::entry_of;

// What a number is looked up by.
#[derive(Clone, Copy, Debug, PartialEq, Eq)]
pub(crate) enum By {
    Table,
    Match,
}

// What stands for an entry in an idle run.
fn no_entry(ptype: u8) -> Entry {
    Entry {
        family: Family::Unknown,
        version: ptype,
        fragment: false,
        l4: L4::None,
    }
}

fn look_up(ptype: u8, by: By, idle: bool) -> Entry {
    if idle {
        return no_entry(ptype);
    }
    match by {
        By::Table => packet_type(ptype),
        By::Match => entry_of(ptype),
    }
}

fn with(sum: Sum, entry: Entry) -> Sum {
    sum.with(u64::from(entry.family))
        .with(entry.version)
        .with(entry.fragment)
        .with(u64::from(entry.l4))
}

pub(crate) fn rounds(by: By, idle: bool, rounds: u64) -> u64 {
    let mut sum = Sum::default();
    for i in 0..rounds {
        sum = with(sum, look_up((i % 256) as u8, by, idle));
    }
    sum.0
}
