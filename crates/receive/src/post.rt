// Post: the answer first, then the slot at the tail.
ghost use Rattle.std.specs.Prelude.{◌≡◌, length};
ghost use Rattle.ring.specs.Steps.{Lent, Grow};
ghost use Rattle.receive.specs.Post.{post_answer, one_more, PostedAs};
ghost use Rattle.receive.specs.Steps.{PutAs};

use crate::{Posted, RxQueue};
use rules::{Answer, Refusal};

impl RxQueue {
    fn post_answer(self, ring_length: usize, list_length: usize, address: u64) -> Answer
        ensures { result ≡ post_answer self ring_length list_length address }
    {
        if !self.lent_ok(ring_length, list_length) {
            return Err(Refusal::WrongRecord);
        }
        if rules::address_wrong(address, self.buffer as u64) {
            return Err(Refusal::WrongAddress);
        }
        if self.shared.no_room(1) {
            return Err(Refusal::NoRoom);
        }
        Ok(())
    }

    // The words of the slot at the tail, and the address beside them.
    fn put(self, ring: &mut [u64], list: &mut [u64], address: u64)
        requires { Lent self.shared (length ring.old) (length list.old) }
        ensures { PutAs self ring.old list.old address ring.new list.new }
    {
        let tail = self.shared.tail();
        ring[2 * tail] = address;
        ring[2 * tail + 1] = 0;
        list[tail] = address;
    }

    fn one_more(self) -> RxQueue
        requires { Grow self.shared 1 }
        ensures { result ≡ one_more self }
    {
        RxQueue {
            shared: self.shared.grown(1),
            buffer: self.buffer,
        }
    }

    // Refused with 1, 2 or 3 in this order, or the slot is posted; a refusal changes nothing.
    pub fn post(self, ring: &mut [u64], list: &mut [u64], address: u64) -> Posted
        ensures { PostedAs self ring.old list.old address result ring.new list.new }
    {
        if let Err(refusal) = self.post_answer(ring.len(), list.len(), address) {
            return Posted {
                answer: Err(refusal),
                queue: self,
            };
        }
        let queue = self.one_more();
        self.put(ring, list, address);
        Posted {
            answer: Ok(()),
            queue,
        }
    }
}
