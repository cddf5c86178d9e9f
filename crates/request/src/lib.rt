// The offload request of a send, its kinds' numbers, and word 1 of the descriptors that carry it.
#![tactic(auto)]

ghost use Rattle.std.specs.Prelude.{◌≡◌};
ghost use Rattle.descriptor.specs.Words.{data_word, context_word};
ghost use Rattle.request.specs.Request.{iipt_of, l4t_of, IpKindAt, L4KindAt, data_of, context_of};

use descriptor::{Context, Data};

// IIPT and L4T, kind by kind.
pub const NO_IP: u64 = 0;

pub const IPV6: u64 = 1;

pub const IPV4: u64 = 2;

pub const IPV4_CHECKSUM: u64 = 3;

pub const NO_L4: u64 = 0;

pub const TCP: u64 = 1;

pub const SCTP: u64 = 2;

pub const UDP: u64 = 3;

#[derive(Clone, Copy, Debug, PartialEq, Eq)]
pub enum IpKind {
    None,
    Ipv6,
    Ipv4,
    Ipv4Checksum,
}

#[derive(Clone, Copy, Debug, PartialEq, Eq)]
pub enum L4Kind {
    None,
    Tcp,
    Sctp,
    Udp,
}

// A number that stands for no kind.
#[derive(Clone, Copy, Debug, PartialEq, Eq)]
pub struct UnknownKind(pub u64);

// What a send asks of the device. The header's lengths are in bytes.
// Kept: `vlan` with `tag`, `segmented` with its two numbers are no options: a tag, an MSS or a TLEN not asked for can be said, and is answered 7.
#[derive(Clone, Copy, Debug, PartialEq, Eq)]
pub struct Request {
    pub ip: IpKind,
    pub l4: L4Kind,
    pub mac_length: u64,
    pub ip_length: u64,
    pub l4_length: u64,
    pub vlan: bool,
    pub tag: u64,
    pub segmented: bool,
    pub mss: u64,
    pub tlen: u64,
}

// ---- the numbers of the kinds

impl From<IpKind> for u64 {
    ghost from_gives = { λ kind n. n ≡ iipt_of kind };

    fn from(kind: IpKind) -> u64 {
        match kind {
            IpKind::None => NO_IP,
            IpKind::Ipv6 => IPV6,
            IpKind::Ipv4 => IPV4,
            IpKind::Ipv4Checksum => IPV4_CHECKSUM,
        }
    }
}

impl From<L4Kind> for u64 {
    ghost from_gives = { λ kind n. n ≡ l4t_of kind };

    fn from(kind: L4Kind) -> u64 {
        match kind {
            L4Kind::None => NO_L4,
            L4Kind::Tcp => TCP,
            L4Kind::Sctp => SCTP,
            L4Kind::Udp => UDP,
        }
    }
}

impl TryFrom<u64> for IpKind {
    type Error = UnknownKind;

    ghost try_from_gives = { IpKindAt };

    fn try_from(number: u64) -> Result<Self, UnknownKind> {
        match number {
            NO_IP => Ok(IpKind::None),
            IPV6 => Ok(IpKind::Ipv6),
            IPV4 => Ok(IpKind::Ipv4),
            IPV4_CHECKSUM => Ok(IpKind::Ipv4Checksum),
            _ => Err(UnknownKind(number)),
        }
    }
}

impl TryFrom<u64> for L4Kind {
    type Error = UnknownKind;

    ghost try_from_gives = { L4KindAt };

    fn try_from(number: u64) -> Result<Self, UnknownKind> {
        match number {
            NO_L4 => Ok(L4Kind::None),
            TCP => Ok(L4Kind::Tcp),
            SCTP => Ok(L4Kind::Sctp),
            UDP => Ok(L4Kind::Udp),
            _ => Err(UnknownKind(number)),
        }
    }
}

// ---- the request in descriptors

// The data descriptor of a piece.
fn data_of(request: Request, length: u64, last: bool) -> Data
    ensures { result ≡ data_of request length last }
{
    Data {
        eop: last,
        rs: last,
        il2tag1: request.vlan,
        iipt: u64::from(request.ip),
        l4t: u64::from(request.l4),
        maclen: request.mac_length / 2,
        iplen: request.ip_length / 4,
        l4len: request.l4_length / 4,
        length,
        tag: request.tag,
    }
}

// Word 1 of a piece.
pub fn piece_word(request: Request, length: u64, last: bool) -> u64
    ensures { result ≡ data_word (data_of request length last) }
{
    descriptor::data_word(data_of(request, length, last))
}

// Word 1 of the context descriptor before the pieces of a segmented send.
pub fn segmentation_word(request: Request) -> u64
    ensures { result ≡ context_word (context_of request) }
{
    descriptor::context_word(Context {
        tlen: request.tlen,
        mss: request.mss,
    })
}
