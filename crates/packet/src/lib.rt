// A packet to be sent on its own: the answers that ask nothing of the queue but its maximum frame, 6 and 2 by its pieces, 7 by its request, 8 by its segments.
#![tactic(auto)]

ghost use Rattle.std.specs.Prelude.{◌≡◌};
ghost use Rattle.rules.specs.Rules.{answer_of};
ghost use Rattle.packet.specs.Packet.{is_over, packet_checks};
ghost use Rattle.packet.specs.Steps.{Segmentable};

use offload::request_ok;
use pieces::look;
use request::Request;
use rules::{Answer, Refusal};
use segments::crowded;

// Whether some segment touches more than 8 pieces; a plain send has no segments.
fn crowds(lengths: &[u64], request: Request) -> bool
    requires { Segmentable lengths.now request }
    ensures { result ≡ is_over lengths.now request }
{
    let header = request.mac_length + request.ip_length + request.l4_length;
    request.segmented && crowded(lengths, header, request.mss, request.tlen)
}

// Answers 6, 2, 7 or 8, the first whose cause holds, or 0. Any lists and numbers go in.
pub fn judge(addresses: &[u64], lengths: &[u64], maximum_frame: u64, request: Request) -> Answer
    ensures { result ≡ answer_of (packet_checks addresses.now lengths.now maximum_frame request) }
{
    let Some(found) = look(addresses, lengths, maximum_frame, request) else {
        return Err(Refusal::WrongPieces);
    };
    if !found.total_ok {
        return Err(Refusal::WrongPieces);
    }
    if !found.addresses_ok {
        return Err(Refusal::WrongAddress);
    }
    if !request_ok(lengths, found.total, maximum_frame, request) {
        return Err(Refusal::WrongRequest);
    }
    if crowds(lengths, request) {
        return Err(Refusal::Crowded);
    }
    Ok(())
}
