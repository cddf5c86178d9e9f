// The receive ring of the mailbox: fresh, tail, posts, and the oldest message. The ring is a lent slice of 32 bytes an element, and a companion list keeps
// what was posted, since the device writes over it.
#![tactic(auto)]

ghost use Rattle.std.specs.Prelude.{◌≡◌, length};
ghost use Rattle.mail_reading.specs.Part.{PartIs};
ghost use Rattle.mail_receive.specs.Receiving.{fresh_of, tail_value_of, tail_register_of, post_answer, PostedAs, message_of};

use mail_reading::Reading;
use mail_request::Room;
use mail_ring::Ring;
use rules::{Answer, Refusal};

// VF_ARQT.
const TAIL_REGISTER: u16 = 0x7000;

#[derive(Clone, Copy, Debug, PartialEq, Eq)]
pub struct ReceiveRing {
    pub shared: Ring,
}

// Kept: structs by the names that docs/MANUAL.md gives them; fresh gives a post's.
// Kept: zeros beside a refusal, since `fresh_of` and `message_of` say them.
#[derive(Clone, Copy, Debug, PartialEq, Eq)]
pub struct Posted {
    pub answer: Answer,
    pub queue: ReceiveRing,
}

#[derive(Clone, Copy, Debug, PartialEq, Eq)]
pub struct Received {
    pub answer: Answer,
    pub queue: ReceiveRing,
    pub reading: Reading,
}

impl ReceiveRing {
    // An empty ring, or 1 with an all-zero record where the size is outside its line.
    // Kept: mail_send has this, the tail calls and the readings too; what they share stands in mail_ring and mail_reading, and a trait would have them again.
    pub fn fresh(size: usize) -> Posted
        ensures { result ≡ fresh_of size }
    {
        let shared = Ring::empty(size);
        if shared.ok() {
            Posted {
                answer: Ok(()),
                queue: ReceiveRing { shared },
            }
        } else {
            Posted {
                answer: Err(Refusal::WrongRecord),
                queue: ReceiveRing {
                    shared: Ring::empty(0),
                },
            }
        }
    }

    // The tail value, or 1 where the record breaks a line.
    pub fn tail_value(self) -> Result<usize, Refusal>
        ensures { result ≡ tail_value_of self }
    {
        self.shared.tail_value()
    }

    // The register's offset, or 1 where the record breaks a line.
    pub fn tail_register(self) -> Result<usize, Refusal>
        ensures { result ≡ tail_register_of self }
    {
        self.shared.tail_register(TAIL_REGISTER)
    }

    // Kept: ring, list and buffer, and their lengths, one by one here and in each call, as mail_ring has them (`lent_ok`).
    fn post_answer(self, ring_length: usize, list_length: usize, lent: usize, room: Room) -> Answer
        ensures { result ≡ post_answer self ring_length list_length lent room }
    {
        if !self.shared.lent_ok(ring_length, list_length) {
            return Err(Refusal::WrongRecord);
        }
        if (room.length == 0) | mail_request::length_wrong(true, room.length, lent) {
            return Err(Refusal::WrongLength);
        }
        if mail_request::address_wrong(room.address, room.length) {
            return Err(Refusal::WrongAddress);
        }
        if self.shared.full() {
            return Err(Refusal::NoRoom);
        }
        Ok(())
    }

    // Room for a message. Refused with 1, 11, 2 or 3 in this order, or the element is posted; a refusal changes nothing.
    pub fn post(self, ring: &mut [u8], list: &mut [u32], buffer: &[u8], room: Room) -> Posted
        ensures { PostedAs self ring.old list.old (length buffer.now) room result ring.new list.new }
    {
        if let Err(refusal) = self.post_answer(ring.len(), list.len(), buffer.len(), room) {
            return Posted {
                answer: Err(refusal),
                queue: self,
            };
        }
        let e = mail_request::room_element(room);
        let shared = self.shared.put(ring, list, e);
        Posted {
            answer: Ok(()),
            queue: ReceiveRing { shared },
        }
    }

    // The oldest message. Refused with 1, 4, 5 or 11 in this order, or its element is handed back.
    pub fn message(self, ring: &[u8], list: &[u32], buffer: &[u8]) -> Received
        ensures { result ≡ message_of self ring.now list.now (length buffer.now) }
    {
        let seen = self.shared.look(ring, list);
        let e = seen.element;
        let wrong = mail_reading::message_wrong(e, seen.posted);
        if let Err(refusal) = mail_reading::answer(seen.answer, wrong, e, buffer.len()) {
            return Received {
                answer: Err(refusal),
                queue: self,
                reading: mail_reading::no_reading(),
            };
        }
        let reading = mail_reading::reading_of(self.shared.head, e);
        Received {
            answer: Ok(()),
            queue: ReceiveRing {
                shared: self.shared.advanced(),
            },
            reading,
        }
    }

    // The bytes of the oldest message, where they lie; none if there is none to read.
    pub fn received<'a>(self, ring: &'a [u8], list: &[u32], buffer: &'a [u8]) -> &'a [u8]
        ensures { PartIs ring.entry buffer.entry (message_of self ring.now list.now (length buffer.now)).reading result }
    {
        let received = self.message(ring, list, buffer);
        mail_reading::part(ring, buffer, received.reading)
    }
}
