// An element of a mailbox ring: 32 bytes, written whole and read field for field.
#![tactic(auto)]

ghost use Rattle.std.specs.Prelude.{◌≡◌, ◌+◌, ◌*◌, ◌≤◌, length};
ghost use Rattle.slots.specs.Memory.{store, read_from};
ghost use Rattle.element.specs.Element.{element_bytes, element_at};

// An element's bytes, and those of its cookie.
pub const ELEMENT: usize = 32;

pub const COOKIE: usize = 8;

// The fields of an element, the address in two halves.
#[derive(Clone, Copy, Debug, Default, PartialEq, Eq)]
pub struct Element {
    pub flags: u16,
    pub opcode: u16,
    pub length: u16,
    pub value: u16,
    pub cookie: [u8; COOKIE],
    pub param0: u32,
    pub param1: u32,
    pub high: u32,
    pub low: u32,
}

pub fn put(ring: &mut [u8], slot: usize, e: Element)
    requires { 32 * slot + 32 ≤ length ring.old }
    ensures { ring.new ≡ store 32 ring.old slot (element_bytes e) }
{
    let at = ELEMENT * slot;
    little::put_number(ring, at, e.flags);
    little::put_number(ring, at + 2, e.opcode);
    little::put_number(ring, at + 4, e.length);
    little::put_number(ring, at + 6, e.value);
    little::copy(ring, at + 8, &e.cookie);
    little::put_number(ring, at + 16, e.param0);
    little::put_number(ring, at + 20, e.param1);
    little::put_number(ring, at + 24, e.high);
    little::put_number(ring, at + 28, e.low);
}

// The cookie of which the first byte stands at a place.
fn cookie_at(ring: &[u8], at: usize) -> [u8; COOKIE]
    requires { at + 8 ≤ length ring.now }
    ensures { result ≡ read_from ring.now at 8 }
{
    let mut cookie = [0; COOKIE];
    cookie.copy_from_slice(&ring[at..at + COOKIE]);
    cookie
}

pub fn read(ring: &[u8], slot: usize) -> Element
    requires { 32 * slot + 32 ≤ length ring.now }
    ensures { result ≡ element_at ring.now slot }
{
    let at = ELEMENT * slot;
    Element {
        flags: little::get_number(ring, at),
        opcode: little::get_number(ring, at + 2),
        length: little::get_number(ring, at + 4),
        value: little::get_number(ring, at + 6),
        cookie: cookie_at(ring, at + 8),
        param0: little::get_number(ring, at + 16),
        param1: little::get_number(ring, at + 20),
        high: little::get_number(ring, at + 24),
        low: little::get_number(ring, at + 28),
    }
}
