// What is read of an element that the device is done with: whether it is as it must be, its numbers, and the message, which stays where it lies.
#![tactic(auto)]

ghost use Rattle.std.specs.Prelude.{◌≡◌, ◌≤◌};
ghost use Rattle.mail_reading.specs.Reading.{completion_wrong, message_wrong, element_checks, ReadAs, reading_of, no_reading};
ghost use Rattle.mail_reading.specs.Part.{Within, PartIs};
ghost use Rattle.mail_ring.specs.Ring.{most_size};

use element::{COOKIE, ELEMENT, Element};
use mail_request::{QUEUE_SHUTDOWN, SEND_TO_PF};
use mail_ring::OPCODE;
use rules::Refusal;

// The opcode of a received message.
const MESSAGE_FROM_PF: u16 = 0x0802;

// Where an element's cookie stands in it.
const COOKIE_PLACE: usize = 8;

// The numbers of an element, and where the message lies: in the buffer, or in the ring.
// Kept: `buf`, `from` and `length` and no slice: an enum that holds one is refused, a struct needs a walk by hand at every caller (docs/DECISIONS.md).
#[derive(Clone, Copy, Debug, Default, PartialEq, Eq)]
pub struct Reading {
    pub error: bool,
    pub value: u16,
    pub cookie: [u8; COOKIE],
    pub buf: bool,
    pub from: usize,
    pub length: usize,
}

// Answer 5's cause of a completion: not the posted opcode, none that is sent, or a flag not echoed.
pub fn completion_wrong(e: Element, posted: u32) -> bool
    ensures { result ≡ completion_wrong e posted }
{
    let opcode = (posted / OPCODE) as u16;
    let flags = (posted % OPCODE) as u16;
    (e.opcode != opcode)
        | !((e.opcode == SEND_TO_PF) | (e.opcode == QUEUE_SHUTDOWN))
        | mail_flags::not_echoed(true, e.flags, flags)
}

// Answer 5's cause of a message.
pub fn message_wrong(e: Element, posted: u32) -> bool
    ensures { result ≡ message_wrong e posted }
{
    let flags = (posted % OPCODE) as u16;
    let buf = mail_flags::buf(e.flags);
    (e.opcode != MESSAGE_FROM_PF) | mail_flags::not_echoed(buf, e.flags, flags)
}

// The answer of a reading: what a look at the element gave, then 5 and 11. A refusal is itself, or what one is made into, as a number.
#[tactic(auto, unfolding(crate::specs::Reading::ReadAs))]
pub fn answer<R: From<Refusal>>(
    looked: Result<(), R>,
    wrong: bool,
    e: Element,
    lent: usize,
) -> Result<(), R>
    ensures { ReadAs R.from_gives looked (element_checks wrong e lent) result }
{
    looked?;
    if wrong {
        return Err(R::from(Refusal::Contradiction));
    }
    let buf = mail_flags::buf(e.flags);
    if mail_request::length_wrong(buf, e.length as usize, lent) {
        return Err(R::from(Refusal::WrongLength));
    }
    Ok(())
}

pub fn no_reading() -> Reading
    ensures { result ≡ no_reading }
{
    Reading::default()
}

// The numbers of the element at head.
#[tactic(auto, unfolding(crate::specs::Reading::reading_of))]
pub fn reading_of(head: usize, e: Element) -> Reading
    requires { head ≤ most_size }
    ensures { result ≡ reading_of head e }
{
    let buf = mail_flags::buf(e.flags);
    let (from, length) = if buf {
        (0, e.length as usize)
    } else {
        (ELEMENT * head + COOKIE_PLACE, COOKIE)
    };
    let cookie = e.cookie;
    Reading {
        error: mail_flags::err(e.flags),
        value: e.value,
        cookie,
        buf,
        from,
        length,
    }
}

// So many bytes from a place on, or none where there are not so many.
// Kept: not `get`, whose contract says a part's bytes and not the place that it has in the lent slice, which `Within` says.
fn within<'a>(s: &'a [u8], from: usize, length: usize) -> &'a [u8]
    ensures { Within s.entry from length result }
{
    if from <= s.len() && length <= s.len() - from {
        &s[from..from + length]
    } else {
        &s[..0]
    }
}

// The bytes of the message that was read, of the buffer or of the ring, with no copy; none beside a refusal.
pub fn part<'a>(ring: &'a [u8], buffer: &'a [u8], r: Reading) -> &'a [u8]
    ensures { PartIs ring.entry buffer.entry r result }
{
    let holder = if r.buf { buffer } else { ring };
    within(holder, r.from, r.length)
}
