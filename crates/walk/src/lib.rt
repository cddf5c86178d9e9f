// The walk of a take over the posted slots of a receive ring, from head upward, until one completes the packet or refuses.
#![tactic(auto)]

ghost use Rattle.std.specs.Prelude.{◌≡◌, length};
ghost use Rattle.ring.specs.Steps.{Lent};
ghost use Rattle.scan.specs.Slots.{posted_slots};
ghost use Rattle.scan.specs.Scan.{scan};
ghost use Rattle.scan.specs.Told.{seen_by};

use ring::Queue;
use rules::Refusal;
use scan::{PACKET_SLOTS, Seen, refused, slot_ok};

// Answers 4 or 5 at the first slot that asks for it, or the packet.
// Kept: a loop of its own beside the one of burst's `packet`, since a take builds arrays here and a burst must not (docs/DECISIONS.md).
pub fn posted(queue: Queue, buffer: usize, ring: &[u64], list: &[u64]) -> Seen
    requires { Lent queue (length ring.now) (length list.now) }
    ensures { result ≡ seen_by (scan buffer 0 (posted_slots queue ring.now list.now)) queue }
{
    let size = queue.size;
    let head = queue.head;
    let posted = queue.posted;
    let mut addresses = [0u64; PACKET_SLOTS];
    let mut lengths = [0usize; PACKET_SLOTS];
    let mut total: usize = 0;
    for k in 0..posted {
        let at = slots::slot(head, size, k);
        let first = 2 * at;
        let word1 = ring[first + 1];
        if !places::dd(word1) {
            return refused(queue, Err(Refusal::NotYet));
        }
        if slot_ok(buffer, k, word1) {
            let length = places::length(word1);
            addresses[k] = list[at];
            lengths[k] = length;
            total += length;
            if places::eop(word1) {
                return Seen {
                    answer: Ok(()),
                    queue: queue.advanced(k + 1),
                    count: k + 1,
                    total,
                    addresses,
                    lengths,
                    word0: ring[first],
                    word1,
                };
            }
        } else {
            return refused(queue, Err(Refusal::Contradiction));
        }
    }
    refused(queue, Err(Refusal::NotYet))
}
