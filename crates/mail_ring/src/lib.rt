// What both mailbox rings share: the part of their records with its lines, the element put at the tail, and the one at head looked at.
#![tactic(auto)]

ghost use Rattle.std.specs.Prelude.{◌≡◌, length, Err};
ghost use Rattle.ring.specs.Queue.{asked_of};
ghost use Rattle.mail_ring.specs.Ring.{ring_ok, lent_ok, empty_ring, tail_of, is_full, advanced};
ghost use Rattle.mail_ring.specs.Look.{look_of, unseen};
ghost use Rattle.mail_ring.specs.Steps.{Placed, Room, Waiting, PutAs};

use element::{ELEMENT, Element};
use rules::{Answer, Refusal};

const SIZE_LEAST: usize = 1;

const SIZE_MOST: usize = 1023;

// The companion list has an element's opcode above its flags.
// Kept: two numbers in one, here and in mail_reading's `posted`, since the list is of 32-bit numbers that scripts and the second program read.
pub const OPCODE: u32 = 65536;

// The part of the record that both rings have.
#[derive(Clone, Copy, Debug, PartialEq, Eq)]
pub struct Ring {
    pub size: usize,
    pub head: usize,
    pub posted: usize,
}

// The element at head and what was posted there, where the device is done with it; zeros beside 1 and 4.
// Kept: they are an element of zeros, of which a reading asks its causes before the answer (contracts of `look` and of mail_reading `answer`).
#[derive(Clone, Copy, Debug, PartialEq, Eq)]
pub struct Seen {
    pub answer: Answer,
    pub element: Element,
    pub posted: u32,
}

fn unseen(refusal: Refusal) -> Seen
    ensures { result ≡ unseen (Err refusal) }
{
    Seen {
        answer: Err(refusal),
        element: Element::default(),
        posted: 0,
    }
}

impl Ring {
    pub fn empty(size: usize) -> Ring
        ensures { result ≡ empty_ring size }
    {
        Ring {
            size,
            head: 0,
            posted: 0,
        }
    }

    pub fn ok(self) -> bool
        ensures { result ≡ ring_ok self }
    {
        ((SIZE_LEAST <= self.size) & (self.size <= SIZE_MOST))
            & ((self.head < self.size) & (self.posted < self.size))
    }

    // The record, and the lengths of the lent ring in bytes and of the companion list.
    // Kept: two lengths here, and ring and list in put and look, since a caller lends them as 01's queues are lent, slice by slice (docs/MANUAL.md).
    pub fn lent_ok(self, ring_length: usize, list_length: usize) -> bool
        ensures { result ≡ lent_ok self ring_length list_length }
    {
        if self.ok() {
            (ring_length == ELEMENT * self.size) & (list_length == self.size)
        } else {
            false
        }
    }

    // The tail value, or 1 where the record breaks a line.
    // Kept: no private function of the test and the value for this and the register, since what `slots::slot` requires hangs on the test.
    pub fn tail_value(self) -> Result<usize, Refusal>
        ensures { result ≡ asked_of (ring_ok self) (tail_of self) }
    {
        if self.ok() {
            Ok(slots::slot(self.head, self.size, self.posted))
        } else {
            Err(Refusal::WrongRecord)
        }
    }

    // The same with the offset of a register.
    pub fn tail_register(self, register: u16) -> Result<usize, Refusal>
        ensures { result ≡ asked_of (ring_ok self) register }
    {
        if self.ok() {
            Ok(register as usize)
        } else {
            Err(Refusal::WrongRecord)
        }
    }

    pub fn full(self) -> bool
        requires { Placed self }
        ensures { result ≡ is_full self }
    {
        self.posted == self.size - 1
    }

    // An element at the tail, and its first four bytes beside it.
    pub fn put(self, ring: &mut [u8], list: &mut [u32], e: Element) -> Ring
        requires { Room self (length ring.old) (length list.old) }
        ensures { PutAs self ring.old list.old e result ring.new list.new }
    {
        let tail = slots::slot(self.head, self.size, self.posted);
        element::put(ring, tail, e);
        list[tail] = e.flags as u32 + OPCODE * e.opcode as u32;
        Ring {
            size: self.size,
            head: self.head,
            posted: self.posted + 1,
        }
    }

    // The element at head is handed back.
    pub fn advanced(self) -> Ring
        requires { Waiting self }
        ensures { result ≡ advanced self }
    {
        Ring {
            size: self.size,
            head: slots::next(self.head, self.size),
            posted: self.posted - 1,
        }
    }

    // The element at head, read once: refused with 1 or 4 in this order.
    pub fn look(self, ring: &[u8], list: &[u32]) -> Seen
        ensures { result ≡ look_of self ring.now list.now }
    {
        if !self.lent_ok(ring.len(), list.len()) {
            return unseen(Refusal::WrongRecord);
        }
        if self.posted == 0 {
            return unseen(Refusal::NotYet);
        }
        let head = self.head;
        let element = element::read(ring, head);
        if mail_flags::dd(element.flags) {
            Seen {
                answer: Ok(()),
                element,
                posted: list[head],
            }
        } else {
            unseen(Refusal::NotYet)
        }
    }
}
