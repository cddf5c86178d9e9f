// The family of a received packet, by Intel's packet type number.
#![tactic(auto)]

ghost use Rattle.std.specs.Prelude.{◌≡◌};
ghost use Rattle.family.specs.Types.{family_of, family_number};

// The family of a packet type number.
#[derive(Clone, Copy, Debug, PartialEq, Eq)]
pub enum Family {
    Unknown,
    Mac,
    Arp,
    Ipv4,
    Ipv6,
}

#[tactic(auto, unfolding(crate::specs::Types::family_of))]
pub fn family_of(ptype: u8) -> Family
    ensures { result ≡ family_of ptype }
{
    match ptype {
        1 => Family::Mac,
        11 => Family::Arp,
        22..=24 | 26..=28 => Family::Ipv4,
        88..=90 | 92..=94 => Family::Ipv6,
        _ => Family::Unknown,
    }
}

// A number for each family, for those who print it.
impl From<Family> for u64 {
    ghost from_gives = { λ family number. number ≡ family_number family };

    fn from(family: Family) -> u64 {
        match family {
            Family::Unknown => 0,
            Family::Mac => 1,
            Family::Arp => 2,
            Family::Ipv4 => 3,
            Family::Ipv6 => 4,
        }
    }
}
