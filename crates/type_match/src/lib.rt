// What a packet type number tells, by a match: for what asks for every packet, and cannot pay for a table that is built anew in each call.
#![tactic(auto)]

ghost use Rattle.std.specs.Prelude.{◌≡◌};
ghost use Rattle.packet_types.specs.Table.{entry_of};

use family::Family;
use packet_types::{Entry, L4, told};

// The entry that the table has.
#[tactic(auto, unfolding(packet_types::specs::Table::entry_of))]
pub fn entry_of(ptype: u8) -> Entry
    ensures { result ≡ entry_of ptype }
{
    match ptype {
        1 => told(Family::Mac, 0, false, L4::None),
        11 => told(Family::Arp, 0, false, L4::None),
        22 => told(Family::Ipv4, 4, true, L4::None),
        23 => told(Family::Ipv4, 4, false, L4::None),
        24 => told(Family::Ipv4, 4, false, L4::Udp),
        26 => told(Family::Ipv4, 4, false, L4::Tcp),
        27 => told(Family::Ipv4, 4, false, L4::Sctp),
        28 => told(Family::Ipv4, 4, false, L4::Icmp),
        88 => told(Family::Ipv6, 6, true, L4::None),
        89 => told(Family::Ipv6, 6, false, L4::None),
        90 => told(Family::Ipv6, 6, false, L4::Udp),
        92 => told(Family::Ipv6, 6, false, L4::Tcp),
        93 => told(Family::Ipv6, 6, false, L4::Sctp),
        94 => told(Family::Ipv6, 6, false, L4::Icmp),
        _ => told(Family::Unknown, 0, false, L4::None),
    }
}
