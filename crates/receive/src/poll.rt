// Burst: many takes in one call, each told by three numbers.
ghost use Rattle.std.specs.Prelude.{◌≡◌};
ghost use Rattle.receive.specs.Burst.{refusal_of, BurstAs};

use crate::{BURST_NUMBERS, BURST_PACKETS, Burst, RxQueue};
use rules::{Answer, Refusal};

impl RxQueue {
    // 1 or 10, in this order.
    #[tactic(auto, unfolding(crate::specs::Burst::refusal_of))]
    fn burst_refusal(
        self,
        ring_length: usize,
        list_length: usize,
        out_length: usize,
        limit: usize,
    ) -> Answer
        ensures { result ≡ refusal_of self ring_length list_length out_length limit }
    {
        if !self.lent_ok(ring_length, list_length) || out_length != BURST_NUMBERS {
            return Err(Refusal::WrongRecord);
        }
        if limit < 1 || BURST_PACKETS < limit {
            return Err(Refusal::WrongLimit);
        }
        Ok(())
    }

    // Answers 1 or 10 with the record as it came, or as the take that stopped it, 4 or 5; it is done if the limit stopped it. Packets taken stand. Packet i has
    // its first slot, its slot count and its total length at places 3i to 3i + 2 of `out`, whose places past the packets stay.
    pub fn burst(self, ring: &[u64], list: &[u64], out: &mut [u64], limit: usize) -> Burst
        ensures { BurstAs self ring.now list.now out.old limit result out.new }
    {
        if let Err(refusal) = self.burst_refusal(ring.len(), list.len(), out.len(), limit) {
            return Burst {
                answer: Err(refusal),
                queue: self,
                packets: 0,
                examined: 0,
            };
        }
        let polled = burst::packets(self.shared, self.buffer, ring, out, limit);
        let shared = polled.queue;
        Burst {
            answer: polled.answer,
            queue: RxQueue {
                shared,
                buffer: self.buffer,
            },
            packets: polled.packets,
            examined: polled.examined,
        }
    }
}
