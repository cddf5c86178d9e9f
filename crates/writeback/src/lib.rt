// The reader of one write-back: what the device wrote to a received slot, field for field.
#![tactic(auto)]

ghost use Rattle.std.specs.Prelude.{◌≡◌};
ghost use Rattle.writeback.specs.WriteBack.{tag_of, hash_of, marks_of, write_back_of};

use family::Family;
use field::flag;
use type_match::entry_of;
use verdict::{Marks, Verdict, l3_verdict, l4_verdict};

// The fields of a write-back. A tag or a hash that is not there reads as 0; the two error bits of checksums are handed up as verdicts.
// Kept: l2tag1p beside tag, fltstat beside hash, and fields of two bits as numbers: each is read as the device wrote it (`write_back_of`).
#[derive(Clone, Copy, Debug, PartialEq, Eq)]
pub struct WriteBack {
    pub tag: u16,
    pub hash: u32,
    pub dd: bool,
    pub eop: bool,
    pub l2tag1p: bool,
    pub l3l4p: bool,
    pub crcp: bool,
    pub umbcast: u8,
    pub fltstat: u8,
    pub lpbk: bool,
    pub ipv6exadd: bool,
    pub int_udp_0: bool,
    pub l3: Verdict,
    pub l4: Verdict,
    pub oversize: bool,
    pub ptype: u8,
    pub length: usize,
    pub family: Family,
}

// Where each field begins, but for DD, EOP and the length: those of word 0, then those of word 1.
const L2TAG1: u64 = 16;

const FILTER: u64 = 32;

const L2TAG1P: u64 = 2;

const L3L4P: u64 = 3;

const CRCP: u64 = 4;

const UMBCAST: u64 = 9;

const FLTSTAT: u64 = 12;

const LPBK: u64 = 14;

const IPV6EXADD: u64 = 15;

const INT_UDP_0: u64 = 18;

// The error field, whose bits count within it.
const ERROR: u64 = 19;

const IPE: u64 = ERROR + 3;

const L4E: u64 = ERROR + 4;

const OVERSIZE: u64 = ERROR + 6;

const PTYPE: u64 = 30;

// How many numbers a field of so many bits holds: reading it leaves the remainder.
// Kept: a field of several bits is a shift and a remainder where it is read: a call with position and width would say the same, and its cast as well.
const TWO_BITS: u64 = 1 << 2;

const EIGHT_BITS: u64 = 1 << 8;

const SIXTEEN_BITS: u64 = 1 << 16;

const THIRTY_TWO_BITS: u64 = 1 << 32;

// Kept: two words, here and in hash_of and read, as the ring holds them; a struct of them would be made by each caller and taken apart here.
fn tag_of(word0: u64, word1: u64) -> u16
    ensures { result ≡ tag_of (record { word0 = word0; word1 = word1 }) }
{
    if flag(word1, L2TAG1P) {
        ((word0 >> L2TAG1) % SIXTEEN_BITS) as u16
    } else {
        0
    }
}

fn hash_of(word0: u64, word1: u64) -> u32
    ensures { result ≡ hash_of (record { word0 = word0; word1 = word1 }) }
{
    if (word1 >> FLTSTAT) % TWO_BITS == 3 {
        ((word0 >> FILTER) % THIRTY_TWO_BITS) as u32
    } else {
        0
    }
}

// What the device says of checksums; the error bits are seen through the verdicts alone.
fn marks_of(word1: u64) -> Marks
    ensures { result ≡ marks_of word1 }
{
    Marks {
        l3l4p: flag(word1, L3L4P),
        ipv6exadd: flag(word1, IPV6EXADD),
        int_udp_0: flag(word1, INT_UDP_0),
        ipe: flag(word1, IPE),
        l4e: flag(word1, L4E),
    }
}

#[tactic(auto, using(verdict::proofs::Types::l3_typed, verdict::proofs::Types::l4_typed, crate::proofs::Verdicts::same_family), unfolding(crate::specs::WriteBack::write_back_of))]
pub fn read(word0: u64, word1: u64) -> WriteBack
    ensures { result ≡ write_back_of (record { word0 = word0; word1 = word1 }) }
{
    let ptype = ((word1 >> PTYPE) % EIGHT_BITS) as u8;
    // Kept: these seven go by names before the struct, since with the calls written inside it a take of one slot costs 310 instructions and not 293.
    let tag = tag_of(word0, word1);
    let hash = hash_of(word0, word1);
    let entry = entry_of(ptype);
    let family = entry.family;
    let marks = marks_of(word1);
    let l3 = l3_verdict(entry.version, marks);
    let l4 = l4_verdict(entry.version, entry.l4, marks);
    WriteBack {
        tag,
        hash,
        dd: places::dd(word1),
        eop: places::eop(word1),
        l2tag1p: flag(word1, L2TAG1P),
        l3l4p: marks.l3l4p,
        crcp: flag(word1, CRCP),
        umbcast: ((word1 >> UMBCAST) % TWO_BITS) as u8,
        fltstat: ((word1 >> FLTSTAT) % TWO_BITS) as u8,
        lpbk: flag(word1, LPBK),
        ipv6exadd: marks.ipv6exadd,
        int_udp_0: marks.int_udp_0,
        l3,
        l4,
        oversize: flag(word1, OVERSIZE),
        ptype,
        length: places::length(word1),
        family,
    }
}
