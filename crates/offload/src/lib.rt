// Answer 7 of a send: whether its request keeps its rules.
#![tactic(auto)]

ghost use Rattle.std.specs.Prelude.{◌≡◌, ◌<◌, ◌^◌};
ghost use Rattle.rules.specs.Rules.{in_steps};
ghost use Rattle.segments.specs.Touch.{total};
ghost use Rattle.offload.specs.Offload.{ip_length_ok, l4_length_ok, headers_ok, mss_ok, segmentation_ok, request_ok};
ghost use Rattle.offload.specs.Steps.{Totalled};

use request::{IpKind, L4Kind, Request};
use segments::header_within;

const MOST_HEADER: u64 = 512;

const MOST_TLEN: u64 = 262143;

const LEAST_MSS: u64 = 88;

const MOST_TAG: u64 = 65535;

fn in_fours(low: u64, high: u64, n: u64) -> bool
    ensures { result ≡ in_steps low high 4 n }
{
    ((low <= n) & (n <= high)) & (n % 4 == 0)
}

fn ip_length_ok(kind: IpKind, n: u64) -> bool
    ensures { result ≡ ip_length_ok kind n }
{
    match kind {
        IpKind::None => n == 0,
        IpKind::Ipv6 => in_fours(40, 508, n),
        IpKind::Ipv4 | IpKind::Ipv4Checksum => in_fours(20, 60, n),
    }
}

fn l4_length_ok(kind: L4Kind, n: u64) -> bool
    ensures { result ≡ l4_length_ok kind n }
{
    match kind {
        L4Kind::None => n == 0,
        L4Kind::Tcp => in_fours(20, 60, n),
        L4Kind::Sctp => n == 12,
        L4Kind::Udp => n == 8,
    }
}

fn headers_ok(request: Request) -> bool
    ensures { result ≡ headers_ok request }
{
    let ip = request.ip;
    let l4 = request.l4;
    let mac = request.mac_length;
    let i = request.ip_length;
    let l = request.l4_length;
    if ip == IpKind::None {
        (l4 == L4Kind::None) & (mac == 0) & (i == 0) & (l == 0) & !request.segmented
    } else {
        (((14 <= mac) & (mac <= 254)) & (mac % 2 == 0)) & ip_length_ok(ip, i) & l4_length_ok(l4, l)
    }
}

fn mss_ok(mss: u64, header: u64, maximum: u64) -> bool
    ensures { result ≡ mss_ok mss header maximum }
{
    match maximum.checked_sub(header) {
        Some(most) => (LEAST_MSS <= mss) & (mss <= most),
        None => false,
    }
}

fn segmentation_ok(lengths: &[u64], maximum: u64, header: u64, request: Request) -> bool
    requires { total lengths.now < 2 ^ 64 }
    ensures { result ≡ segmentation_ok lengths.now maximum header request }
{
    let ip = request.ip;
    let l4 = request.l4;
    let mss = request.mss;
    let tlen = request.tlen;
    if request.segmented {
        (l4 == L4Kind::Tcp)
            & ((ip == IpKind::Ipv6) | (ip == IpKind::Ipv4Checksum))
            & (header <= MOST_HEADER)
            & header_within(lengths, header)
            & ((1 <= tlen) & (tlen <= MOST_TLEN))
            & mss_ok(mss, header, maximum)
    } else {
        (mss == 0) & (tlen == 0)
    }
}

// The bytes of all pieces have been added up before: `total`.
pub fn request_ok(lengths: &[u64], total: u64, maximum: u64, request: Request) -> bool
    requires { Totalled lengths.now total }
    ensures { result ≡ request_ok lengths.now maximum request }
{
    if headers_ok(request) {
        // Kept: written here and in packet: a function of it would require that the sum does not wrap, which another fact shows at either place.
        let header = request.mac_length + request.ip_length + request.l4_length;
        let tag = (request.tag <= MOST_TAG) & (request.vlan | (request.tag == 0));
        (header <= total) & tag & segmentation_ok(lengths, maximum, header, request)
    } else {
        false
    }
}
