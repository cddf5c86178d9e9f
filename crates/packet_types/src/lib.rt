// What a packet type number tells of a received packet: Intel's Table 2-4, for all 256 numbers.
#![tactic(auto)]

ghost use Rattle.std.specs.Prelude.{◌≡◌};
ghost use Rattle.family.specs.Types.{family_from};
ghost use Rattle.packet_types.specs.Table.{told, entry_of, l4_number};
ghost use Rattle.packet_types.specs.Steps.{l4_from, unpacked};

mod table;

use family::Family;
use table::{DIGIT, FRAGMENT, KIND, TABLE, VERSION};

// What a packet carries above IP, as far as Table 2-4 tells it.
#[derive(Clone, Copy, Debug, PartialEq, Eq)]
pub enum L4 {
    None,
    Tcp,
    Sctp,
    Udp,
    Icmp,
}

// What a packet type number tells. The version is 4 or 6, or 0 for none.
// Kept: a version is a number, since `l3_verdict`, `l4_verdict` and `told` take any, and an enum of 4 and 6 would ask more of their callers.
#[derive(Clone, Copy, Debug, PartialEq, Eq)]
pub struct Entry {
    pub family: Family,
    pub version: u8,
    pub fragment: bool,
    pub l4: L4,
}

// An entry of these four.
pub fn told(family: Family, version: u8, fragment: bool, l4: L4) -> Entry
    ensures { result ≡ told family version fragment l4 }
{
    Entry {
        family,
        version,
        fragment,
        l4,
    }
}

// A family and an L4 kind by their digits.
// Kept: a row of an enum in place of the digits was tried and proved; a look-up by the table took 46.75 instructions where this takes 25.75, and the
// crate's check 53 s where it takes 22. A const array of 256 entries as structs stops the prover at its limit of 50 million steps.
fn family_from(digit: u16) -> Family
    ensures { result ≡ family_from digit }
{
    match digit {
        1 => Family::Mac,
        2 => Family::Arp,
        3 => Family::Ipv4,
        4 => Family::Ipv6,
        _ => Family::Unknown,
    }
}

fn l4_from(digit: u16) -> L4
    ensures { result ≡ l4_from digit }
{
    match digit {
        1 => L4::Tcp,
        2 => L4::Sctp,
        3 => L4::Udp,
        4 => L4::Icmp,
        _ => L4::None,
    }
}

// What the digits of an entry of the table say.
fn unpacked(digits: u16) -> Entry
    ensures { result ≡ unpacked digits }
{
    told(
        family_from(digits % DIGIT),
        (digits / VERSION % DIGIT) as u8,
        digits / FRAGMENT % DIGIT == 1,
        l4_from(digits / KIND),
    )
}

// The entry of a packet type number, looked up in the table.
#[tactic(auto, using(crate::proofs::Entries::looked_up), unfolding(crate::specs::Steps::table))]
pub fn packet_type(ptype: u8) -> Entry
    ensures { result ≡ entry_of ptype }
{
    unpacked(TABLE[ptype as usize])
}

// A number for each L4 kind, for those who print it.
impl From<L4> for u64 {
    ghost from_gives = { λ l4 number. number ≡ l4_number l4 };

    fn from(l4: L4) -> u64 {
        match l4 {
            L4::None => 0,
            L4::Tcp => 1,
            L4::Sctp => 2,
            L4::Udp => 3,
            L4::Icmp => 4,
        }
    }
}
