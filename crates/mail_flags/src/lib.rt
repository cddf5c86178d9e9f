// The flags of a mailbox element: a driver's packed into a word, the device's read from one, and whether those that must come back did.
#![tactic(auto)]

ghost use Rattle.std.specs.Prelude.{◌≡◌, ◌<◌};
ghost use Rattle.field.specs.Field.{is_set, part};
ghost use Rattle.mail_flags.specs.Flags.{dd_flag, err_flag, buf_flag, flags_of, differs, not_echoed};

// Where each flag stands.
const DD: u64 = 0;

const ERR: u64 = 2;

const LB: u64 = 9;

const RD: u64 = 10;

const VFC: u64 = 11;

const BUF: u64 = 12;

const SI: u64 = 13;

const EI: u64 = 14;

const FE: u64 = 15;

// The flags that a driver sets; it leaves all others clear.
#[derive(Clone, Copy, Debug, Default, PartialEq, Eq)]
pub struct Flags {
    pub lb: bool,
    pub rd: bool,
    pub buf: bool,
    pub si: bool,
    pub ei: bool,
    pub fe: bool,
}

pub fn flags_of(f: Flags) -> u16
    ensures { result ≡ flags_of f }
{
    let word = (f.lb as u64) << LB
        | (f.rd as u64) << RD
        | (f.buf as u64) << BUF
        | (f.si as u64) << SI
        | (f.ei as u64) << EI
        | (f.fe as u64) << FE;
    word as u16
}

// The bit at a place.
fn flag(flags: u16, place: u64) -> bool
    requires { place < 16 }
    ensures { result ≡ is_set (part place 1) flags }
{
    field::flag(u64::from(flags), place)
}

// DD: the device is done with the element.
// Kept: this, `err` and `buf` are the names of 000 for three bits of one function.
pub fn dd(flags: u16) -> bool
    ensures { result ≡ is_set dd_flag flags }
{
    flag(flags, DD)
}

pub fn err(flags: u16) -> bool
    ensures { result ≡ is_set err_flag flags }
{
    flag(flags, ERR)
}

// BUF: the message lies in a buffer.
pub fn buf(flags: u16) -> bool
    ensures { result ≡ is_set buf_flag flags }
{
    flag(flags, BUF)
}

// A flag is not as it was posted.
fn differs(flags: u16, posted: u16, place: u64) -> bool
    requires { place < 16 }
    ensures { result ≡ differs flags posted (part place 1) }
{
    flag(flags, place) != flag(posted, place)
}

// A flag that has to come back as it was posted did not; LB and BUF are judged where it is asked for.
pub fn not_echoed(buffered: bool, flags: u16, posted: u16) -> bool
    ensures { result ≡ not_echoed buffered flags posted }
{
    let others = differs(flags, posted, RD)
        | differs(flags, posted, VFC)
        | differs(flags, posted, SI)
        | differs(flags, posted, EI)
        | differs(flags, posted, FE);
    others | (buffered & (differs(flags, posted, LB) | differs(flags, posted, BUF)))
}
