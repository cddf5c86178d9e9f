// What a driver asks of the mailbox, and the element that says it; lengths and addresses that cannot be.
#![tactic(auto)]

ghost use Rattle.std.specs.Prelude.{◌≡◌, cond, ◌≤◌};
ghost use Rattle.rules.specs.Address.{address_wrong};
ghost use Rattle.element.specs.Element.{no_cookie};
ghost use Rattle.mail_request.specs.Request.{most_length, length_wrong, element_of, send_element, shutdown_element, room_element};

use element::{COOKIE, Element};
use mail_flags::Flags;

// The opcodes of a driver's elements. One posted to be received has none.
// Kept: numbers and no enum, since the device may write any opcode into the element that is read (`completion_wrong`).
pub const SEND_TO_PF: u16 = 0x0801;

pub const QUEUE_SHUTDOWN: u16 = 0x0003;

// The longest message, and the longest buffer that is not a large one.
const LENGTH_MOST: usize = 4096;

const LARGE_BUFFER: usize = 512;

// The values of an address's half.
const HALF: u64 = 0x1_0000_0000;

// A message to be sent: in a buffer at an address, or in the cookie.
// Kept: `buf` beside `address`, and no Option, since the edit address_without_buffer gives an address where `buf` is clear.
#[derive(Clone, Copy, Debug, PartialEq, Eq)]
pub struct Message {
    pub buf: bool,
    pub length: usize,
    pub address: u64,
    pub si: bool,
    pub ei: bool,
    pub fe: bool,
    pub cookie: [u8; COOKIE],
}

#[derive(Clone, Copy, Debug, PartialEq, Eq)]
pub struct Shutdown {
    pub unloading: bool,
    pub si: bool,
    pub ei: bool,
    pub fe: bool,
    pub cookie: [u8; COOKIE],
}

// Room for a message to be received, a buffer at an address.
#[derive(Clone, Copy, Debug, PartialEq, Eq)]
pub struct Room {
    pub length: usize,
    pub address: u64,
    pub si: bool,
    pub ei: bool,
}

// Answer 11's cause: above the buffer lent, above the longest, or a length without a buffer.
pub fn length_wrong(buf: bool, length: usize, lent: usize) -> bool
    ensures { result ≡ length_wrong buf length lent }
{
    (lent < length) | (LENGTH_MOST < length) | (!buf & (length != 0))
}

// Answer 2's cause, for no byte too.
pub fn address_wrong(address: u64, length: usize) -> bool
    ensures { result ≡ address_wrong address length }
{
    if length == 0 {
        address == 0
    } else {
        rules::address_wrong(address, length as u64)
    }
}

// All other fields are 0.
fn addressed(address: u64) -> Element
    ensures { result ≡ element_of 0 0 0 no_cookie 0 address }
{
    Element {
        high: (address / HALF) as u32,
        low: (address % HALF) as u32,
        ..Element::default()
    }
}

// Where the buffer is, if there is one.
fn buffer_address(buf: bool, address: u64) -> u64
    ensures { result ≡ cond buf address 0 }
{
    if buf { address } else { 0 }
}

pub fn send_element(m: Message) -> Element
    requires { m.length ≤ most_length }
    ensures { result ≡ send_element m }
{
    let flags = Flags {
        lb: m.buf & (LARGE_BUFFER < m.length),
        rd: m.buf & (m.length != 0),
        buf: m.buf,
        si: m.si,
        ei: m.ei,
        fe: m.fe,
    };
    // Kept: a `let` for the cookie, here and where an element's is read: the borrow checker refuses an array field given straight to a struct's field.
    let cookie = m.cookie;
    Element {
        flags: mail_flags::flags_of(flags),
        opcode: SEND_TO_PF,
        length: m.length as u16,
        cookie,
        ..addressed(buffer_address(m.buf, m.address))
    }
}

pub fn shutdown_element(s: Shutdown) -> Element
    ensures { result ≡ shutdown_element s }
{
    let flags = Flags {
        si: s.si,
        ei: s.ei,
        fe: s.fe,
        ..Flags::default()
    };
    let cookie = s.cookie;
    Element {
        flags: mail_flags::flags_of(flags),
        opcode: QUEUE_SHUTDOWN,
        cookie,
        param0: s.unloading as u32,
        ..Element::default()
    }
}

pub fn room_element(r: Room) -> Element
    requires { r.length ≤ most_length }
    ensures { result ≡ room_element r }
{
    let flags = Flags {
        lb: LARGE_BUFFER < r.length,
        buf: true,
        si: r.si,
        ei: r.ei,
        ..Flags::default()
    };
    Element {
        flags: mail_flags::flags_of(flags),
        length: r.length as u16,
        ..addressed(r.address)
    }
}
