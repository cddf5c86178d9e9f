// Word 1 of transmit descriptors, packed and taken apart with shifts and masks. Word 0 of a data descriptor is the address
// and that of a context descriptor is 0, so neither needs a function.
#![tactic(auto)]

ghost use Rattle.std.specs.Prelude.{◌≡◌};
ghost use Rattle.descriptor.specs.Words.{data_word, read_data, context_word, read_context};

// Where each field begins, and the numbers that it holds.
const EOP: u64 = 4;

const RS: u64 = 5;

const IL2TAG1: u64 = 7;

const IIPT: u64 = 9;

const L4T: u64 = 12;

const MACLEN: u64 = 16;

const IPLEN: u64 = 23;

const L4LEN: u64 = 30;

pub const LENGTH: u64 = 34;

const TAG: u64 = 48;

const TLEN: u64 = 30;

const MSS: u64 = 50;

const TWO_BITS: u64 = 0x3;

const FOUR_BITS: u64 = 0xf;

const SEVEN_BITS: u64 = 0x7f;

const FOURTEEN_BITS: u64 = 0x3fff;

const SIXTEEN_BITS: u64 = 0xffff;

const EIGHTEEN_BITS: u64 = 0x3ffff;

// The CRC command (bit 6), which the device asks to be 1 on every data descriptor.
const CRC: u64 = 0x40;
// Type 1 and the command TSO (bit 4), on every context descriptor.
const SEGMENTATION: u64 = 0x11;

// A data descriptor's word 1, field by field. MACLEN is in 2-byte units, IPLEN and L4LEN are in 4-byte units.
#[derive(Clone, Copy, Debug, PartialEq, Eq)]
pub struct Data {
    pub eop: bool,
    pub rs: bool,
    pub il2tag1: bool,
    pub iipt: u64,
    pub l4t: u64,
    pub maclen: u64,
    pub iplen: u64,
    pub l4len: u64,
    pub length: u64,
    pub tag: u64,
}

// A context descriptor's word 1.
#[derive(Clone, Copy, Debug, PartialEq, Eq)]
pub struct Context {
    pub tlen: u64,
    pub mss: u64,
}

// Kept: four functions and no From, since either reading takes any word, and both ways cut each number down to its field (01, "Forms by place").
pub fn data_word(d: Data) -> u64
    ensures { result ≡ data_word d }
{
    (d.eop as u64) << EOP
        | (d.rs as u64) << RS
        | CRC
        | (d.il2tag1 as u64) << IL2TAG1
        | (d.iipt & TWO_BITS) << IIPT
        | (d.l4t & TWO_BITS) << L4T
        | (d.maclen & SEVEN_BITS) << MACLEN
        | (d.iplen & SEVEN_BITS) << IPLEN
        | (d.l4len & FOUR_BITS) << L4LEN
        | (d.length & FOURTEEN_BITS) << LENGTH
        | (d.tag & SIXTEEN_BITS) << TAG
}

// Kept: flags by shift and mask, and not by field's `flag`: 01 has that form for transmit word 1.
pub fn read_data(w: u64) -> Data
    ensures { result ≡ read_data w }
{
    Data {
        eop: (w >> EOP) & 1 == 1,
        rs: (w >> RS) & 1 == 1,
        il2tag1: (w >> IL2TAG1) & 1 == 1,
        iipt: (w >> IIPT) & TWO_BITS,
        l4t: (w >> L4T) & TWO_BITS,
        maclen: (w >> MACLEN) & SEVEN_BITS,
        iplen: (w >> IPLEN) & SEVEN_BITS,
        l4len: (w >> L4LEN) & FOUR_BITS,
        length: (w >> LENGTH) & FOURTEEN_BITS,
        tag: (w >> TAG) & SIXTEEN_BITS,
    }
}

pub fn context_word(x: Context) -> u64
    ensures { result ≡ context_word x }
{
    SEGMENTATION | (x.tlen & EIGHTEEN_BITS) << TLEN | (x.mss & FOURTEEN_BITS) << MSS
}

pub fn read_context(w: u64) -> Context
    ensures { result ≡ read_context w }
{
    Context {
        tlen: (w >> TLEN) & EIGHTEEN_BITS,
        mss: (w >> MSS) & FOURTEEN_BITS,
    }
}
