// The send ring of the mailbox: fresh, tail, Send to PF, Queue Shutdown, and the oldest completion. The ring is a lent slice of 32 bytes an element, and a
// companion list keeps what was posted, since the device writes over it.
#![tactic(auto)]

ghost use Rattle.std.specs.Prelude.{◌≡◌, length};
ghost use Rattle.mail_reading.specs.Part.{PartIs};
ghost use Rattle.mail_send.specs.Sending.{fresh_of, tail_value_of, tail_register_of, send_answer, SentAs, shutdown_answer, ShutAs, completion_of};

use mail_reading::Reading;
use mail_request::{Message, Shutdown};
use mail_ring::Ring;
use rules::{Answer, Refusal};

// VF_ATQT.
const TAIL_REGISTER: u16 = 0x8400;

// What both rings have, and whether a shutdown has been posted.
#[derive(Clone, Copy, Debug, PartialEq, Eq)]
pub struct SendRing {
    pub shared: Ring,
    pub shut: bool,
}

// Kept: structs by the names that docs/MANUAL.md gives them; fresh and shutdown give a send's.
// Kept: zeros beside a refusal, since `fresh_of` and `completion_of` say them.
#[derive(Clone, Copy, Debug, PartialEq, Eq)]
pub struct Sent {
    pub answer: Answer,
    pub queue: SendRing,
}

// A completion of a send or of a shutdown, as its opcode says; the message by `mail_reading::part` of its reading.
// Kept: the opcode a number, since the device may write any opcode, and a refused completion has 0 (edit refused_opcode).
#[derive(Clone, Copy, Debug, PartialEq, Eq)]
pub struct Completion {
    pub answer: Answer,
    pub queue: SendRing,
    pub opcode: u16,
    pub reading: Reading,
}

impl SendRing {
    // An empty ring that is open, or 1 with an all-zero record where the size is outside its line.
    // Kept: mail_receive has this, the tail calls and the readings too; what they share stands in mail_ring and mail_reading, a trait would have them again.
    pub fn fresh(size: usize) -> Sent
        ensures { result ≡ fresh_of size }
    {
        let shared = Ring::empty(size);
        if shared.ok() {
            Sent {
                answer: Ok(()),
                queue: SendRing {
                    shared,
                    shut: false,
                },
            }
        } else {
            Sent {
                answer: Err(Refusal::WrongRecord),
                queue: SendRing {
                    shared: Ring::empty(0),
                    shut: false,
                },
            }
        }
    }

    // The tail value, or 1 where the record breaks a line.
    pub fn tail_value(self) -> Result<usize, Refusal>
        ensures { result ≡ tail_value_of self }
    {
        self.shared.tail_value()
    }

    // The register's offset, or 1 where the record breaks a line.
    pub fn tail_register(self) -> Result<usize, Refusal>
        ensures { result ≡ tail_register_of self }
    {
        self.shared.tail_register(TAIL_REGISTER)
    }

    // Kept: ring, list and buffer, and their lengths, one by one here and in each call, as mail_ring has them (`lent_ok`).
    fn send_answer(
        self,
        ring_length: usize,
        list_length: usize,
        lent: usize,
        message: Message,
    ) -> Answer
        ensures { result ≡ send_answer self ring_length list_length lent message }
    {
        if !self.shared.lent_ok(ring_length, list_length) {
            return Err(Refusal::WrongRecord);
        }
        if self.shut {
            return Err(Refusal::AfterShutdown);
        }
        if mail_request::length_wrong(message.buf, message.length, lent) {
            return Err(Refusal::WrongLength);
        }
        if message.buf & mail_request::address_wrong(message.address, message.length) {
            return Err(Refusal::WrongAddress);
        }
        if self.shared.full() {
            return Err(Refusal::NoRoom);
        }
        Ok(())
    }

    fn shutdown_answer(self, ring_length: usize, list_length: usize) -> Answer
        ensures { result ≡ shutdown_answer self ring_length list_length }
    {
        if !self.shared.lent_ok(ring_length, list_length) {
            return Err(Refusal::WrongRecord);
        }
        if self.shut {
            return Err(Refusal::AfterShutdown);
        }
        if self.shared.full() {
            return Err(Refusal::NoRoom);
        }
        Ok(())
    }

    // Send to PF. Refused with 1, 12, 11, 2 or 3 in this order, or the element is posted; a refusal changes nothing.
    pub fn send(self, ring: &mut [u8], list: &mut [u32], buffer: &[u8], message: Message) -> Sent
        ensures { SentAs self ring.old list.old (length buffer.now) message result ring.new list.new }
    {
        if let Err(refusal) = self.send_answer(ring.len(), list.len(), buffer.len(), message) {
            return Sent {
                answer: Err(refusal),
                queue: self,
            };
        }
        let e = mail_request::send_element(message);
        let shared = self.shared.put(ring, list, e);
        Sent {
            answer: Ok(()),
            queue: SendRing {
                shared,
                shut: self.shut,
            },
        }
    }

    // Queue Shutdown. Refused with 1, 12 or 3 in this order, or the element is posted and the ring shut.
    pub fn shutdown(self, ring: &mut [u8], list: &mut [u32], request: Shutdown) -> Sent
        ensures { ShutAs self ring.old list.old request result ring.new list.new }
    {
        if let Err(refusal) = self.shutdown_answer(ring.len(), list.len()) {
            return Sent {
                answer: Err(refusal),
                queue: self,
            };
        }
        let e = mail_request::shutdown_element(request);
        let shared = self.shared.put(ring, list, e);
        Sent {
            answer: Ok(()),
            queue: SendRing { shared, shut: true },
        }
    }

    // The oldest completion. Refused with 1, 4, 5 or 11 in this order, or its element is handed back.
    pub fn completion(self, ring: &[u8], list: &[u32], buffer: &[u8]) -> Completion
        ensures { result ≡ completion_of self ring.now list.now (length buffer.now) }
    {
        let seen = self.shared.look(ring, list);
        let e = seen.element;
        let wrong = mail_reading::completion_wrong(e, seen.posted);
        if let Err(refusal) = mail_reading::answer(seen.answer, wrong, e, buffer.len()) {
            return Completion {
                answer: Err(refusal),
                queue: self,
                opcode: 0,
                reading: mail_reading::no_reading(),
            };
        }
        let reading = mail_reading::reading_of(self.shared.head, e);
        Completion {
            answer: Ok(()),
            queue: SendRing {
                shared: self.shared.advanced(),
                shut: self.shut,
            },
            opcode: e.opcode,
            reading,
        }
    }

    // The bytes of the oldest completion's message, where they lie; none if there is none to read.
    pub fn completed<'a>(self, ring: &'a [u8], list: &[u32], buffer: &'a [u8]) -> &'a [u8]
        ensures { PartIs ring.entry buffer.entry (completion_of self ring.now list.now (length buffer.now)).reading result }
    {
        let completion = self.completion(ring, list, buffer);
        mail_reading::part(ring, buffer, completion.reading)
    }
}
