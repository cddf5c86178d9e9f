// Take: the posted slots are scanned from head upward.
ghost use Rattle.std.specs.Prelude.{◌≡◌};
ghost use Rattle.scan.specs.Told.{seen_by};
ghost use Rattle.receive.specs.Take.{look, take_of};
ghost use Rattle.receive.specs.Steps.{taken_as};

use crate::{Packet, RxQueue, Taken};
use rules::Refusal;
use scan::Seen;

impl RxQueue {
    // The posted slots are scanned, unless the record or a slice is wrong.
    fn seen(self, ring: &[u64], list: &[u64]) -> Seen
        ensures { result ≡ seen_by (look self ring.now list.now) self.shared }
    {
        if self.lent_ok(ring.len(), list.len()) {
            walk::posted(self.shared, self.buffer, ring, list)
        } else {
            scan::refused(self.shared, Err(Refusal::WrongRecord))
        }
    }

    // What a scan gives, with the buffer size beside the record's shared part and the last slot's words read field for field. Of two words that are 0
    // all fields are 0.
    fn taken(self, seen: Seen) -> Taken
        ensures { result ≡ taken_as self seen }
    {
        let shared = seen.queue;
        let addresses = seen.addresses;
        let lengths = seen.lengths;
        let last = writeback::read(seen.word0, seen.word1);
        Taken {
            answer: seen.answer,
            queue: RxQueue {
                shared,
                buffer: self.buffer,
            },
            packet: Packet {
                count: seen.count,
                total: seen.total,
                addresses,
                lengths,
                last,
            },
        }
    }

    // Refused with 1, then 4 or 5 at the first slot that asks for it, or the packet; a refusal gives the record as it came and zeros.
    pub fn take(self, ring: &[u64], list: &[u64]) -> Taken
        ensures { result ≡ take_of self ring.now list.now }
    {
        let seen = self.seen(ring, list);
        self.taken(seen)
    }
}
