// Whether the checksums of a received packet may be believed: a verdict for L3 and one for L4, by its type and by what the device marked.
#![tactic(auto)]

ghost use Rattle.std.specs.Prelude.{◌≡◌};
ghost use Rattle.packet_types.specs.declared.L4.TheVariants.{None};
ghost use Rattle.verdict.specs.Verdict.{verdict_number, decided, typed, l3_of, l4_of};
ghost use Rattle.verdict.specs.Steps.{summed_rules, unsummed_rules};

use packet_types::L4;

// What is known of a checksum.
#[derive(Clone, Copy, Debug, PartialEq, Eq)]
pub enum Verdict {
    NotChecked,
    Good,
    Bad,
}

// What a write-back says of checksums: that the device processed them, what may have misled it, and its two error bits.
#[derive(Clone, Copy, Debug, PartialEq, Eq)]
pub struct Marks {
    pub l3l4p: bool,
    pub ipv6exadd: bool,
    pub int_udp_0: bool,
    pub ipe: bool,
    pub l4e: bool,
}

const IPV4: u8 = 4;

const IPV6: u8 = 6;

// A number for each verdict, for those who print it.
impl From<Verdict> for u64 {
    ghost from_gives = { λ verdict number. number ≡ verdict_number verdict };

    fn from(verdict: Verdict) -> u64 {
        match verdict {
            Verdict::NotChecked => 0,
            Verdict::Good => 1,
            Verdict::Bad => 2,
        }
    }
}

// L3 of a packet of this IP version.
#[tactic(auto, using(crate::proofs::Rules::known), unfolding(crate::specs::Verdict::l3_of))]
pub fn l3_verdict(version: u8, marks: Marks) -> Verdict
    ensures { result ≡ l3_of (typed version None) marks }
{
    if version != IPV4 || !marks.l3l4p {
        Verdict::NotChecked
    } else if marks.ipe {
        Verdict::Bad
    } else {
        Verdict::Good
    }
}

// L4 of a kind whose checksum the device sums up, and that is there.
fn summed(marks: Marks) -> Verdict
    ensures { result ≡ decided (summed_rules marks) }
{
    if !marks.l3l4p || marks.ipv6exadd {
        Verdict::NotChecked
    } else if marks.l4e {
        Verdict::Bad
    } else {
        Verdict::Good
    }
}

// UDP without a checksum.
fn unsummed(version: u8, marks: Marks) -> Verdict
    ensures { result ≡ decided (unsummed_rules version marks) }
{
    if !marks.l3l4p || version == IPV4 {
        Verdict::NotChecked
    } else if version == IPV6 {
        Verdict::Bad
    } else {
        summed(marks)
    }
}

// L4 of a packet of this IP version and this kind. The kind is asked first: where the compiler inlines the look-up of the type, it joins
// a match on the kind with it.
#[tactic(auto, unfolding(crate::specs::Verdict::l4_of))]
pub fn l4_verdict(version: u8, l4: L4, marks: Marks) -> Verdict
    ensures { result ≡ l4_of (typed version l4) marks }
{
    match l4 {
        L4::None => Verdict::NotChecked,
        L4::Udp if marks.int_udp_0 => unsummed(version, marks),
        L4::Tcp | L4::Sctp | L4::Udp => summed(marks),
        L4::Icmp => Verdict::NotChecked,
    }
}
