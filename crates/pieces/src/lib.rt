// The pieces of a send: the answers 6 and 2, in one walk over them.
#![tactic(auto)]

ghost use Rattle.std.specs.Prelude.{◌≡◌, ◌<◌, min};
ghost use Rattle.segments.specs.Steps.{sum_limit};
ghost use Rattle.pieces.specs.Pieces.{most_pieces_of, lengths_ok, total_ok, found_if, found_of};
ghost use Rattle.pieces.specs.Steps.{Walkable};

use request::Request;
use rules::address_wrong;

pub const MOST_LENGTH: u64 = 16383;

const PLAIN_PIECES: usize = 8;

const MOST_PIECES: usize = 4094;

const LEAST_TOTAL: u64 = 17;

// Above every total that a send can have, and four of it can be added up.
const CAP: u64 = 0x1_0000_0000;

// What one walk over pieces whose count and lengths are right finds: whether their total is right, so that there is no cause of 6; whether
// there is none of 2; and the bytes of all pieces.
// Kept: two bools and no list of causes, since 6 comes before 2 and found_of promises both of any such pieces.
#[derive(Clone, Copy, Debug, PartialEq, Eq)]
pub struct Found {
    pub total_ok: bool,
    pub addresses_ok: bool,
    pub total: u64,
}

// ---- 6: piece count or lengths wrong

fn most_pieces(segmented: bool) -> usize
    ensures { result ≡ most_pieces_of segmented }
{
    if segmented { MOST_PIECES } else { PLAIN_PIECES }
}

fn capped(n: u64) -> u64
    ensures { result ≡ min n sum_limit }
{
    n.min(CAP)
}

// A total below the cap equals a sum of capped numbers exactly if it equals the sum of the numbers.
fn total_ok(total: u64, maximum: u64, request: Request) -> bool
    requires { total < sum_limit }
    ensures { result ≡ total_ok total maximum request }
{
    if request.segmented {
        let header = capped(request.mac_length)
            + capped(request.ip_length)
            + capped(request.l4_length);
        total == header + capped(request.tlen)
    } else {
        (LEAST_TOTAL <= total) & (total <= maximum)
    }
}

// ---- 6 and 2 in one walk

// The lengths, the addresses and the total. It ends at the first length that is wrong.
// Kept: two lists side by side, here, in packet, fill and transmit, since 01 has a send take the pieces as two slices ("the covered two-slice send").
fn walk(addresses: &[u64], lengths: &[u64], maximum: u64, request: Request) -> Option<Found>
    requires { Walkable addresses.now lengths.now }
    ensures { result ≡ found_if (lengths_ok lengths.now) addresses.now lengths.now maximum request }
{
    let mut addresses_ok = true;
    let mut total = 0;
    for (&address, &length) in addresses.iter().zip(lengths) {
        if (1 <= length) & (length <= MOST_LENGTH) {
            addresses_ok = !address_wrong(address, length) & addresses_ok;
            total += length;
        } else {
            return None;
        }
    }
    Some(Found {
        total_ok: total_ok(total, maximum, request),
        addresses_ok,
        total,
    })
}

// None where the count or a length is wrong, a cause of 6. Any lists and numbers go in.
pub fn look(addresses: &[u64], lengths: &[u64], maximum: u64, request: Request) -> Option<Found>
    ensures { result ≡ found_of addresses.now lengths.now maximum request }
{
    let n = lengths.len();
    let most = most_pieces(request.segmented);
    if (addresses.len() == n) & ((1 <= n) & (n <= most)) {
        walk(addresses, lengths, maximum, request)
    } else {
        None
    }
}
