// What the lines of the mailbox share: a ring's memory as the bench holds it, and the rows of answers. A part of the
// program `probe`: what it prints is compared.
#![tactic(auto)]

use mail_reading::Reading;
use mail_ring::Ring;
use rules::{Answer, number_of};
use script::{ELEMENTS, MAIL_RING, Memory, Numbers, Row, row_of};
use sum::sum_of;

// A ring's bytes and its list, 32 bytes an element.
pub type MailMemory = Memory<u8, u32, MAIL_RING, ELEMENTS>;

// Nothing is lent yet.
pub fn memory() -> MailMemory {
    Memory::of([0; MAIL_RING], [0; ELEMENTS])
}

// A fresh ring has its whole memory lent, where it is one.
pub fn begun(memory: &mut MailMemory, answer: Answer, shared: Ring) {
    if answer.is_ok() {
        memory.lend(shared.size << 5, shared.size);
    }
}

// What a line hands in of the record: its first three numbers.
pub fn ring_of(numbers: &Numbers) -> Ring {
    Ring {
        size: numbers[0] as usize,
        head: numbers[1] as usize,
        posted: numbers[2] as usize,
    }
}

// The row of a fresh ring.
pub fn fresh_row(answer: Answer, shared: Ring) -> Row {
    row_of(&[
        u64::from(number_of(answer)),
        shared.size as u64,
        shared.head as u64,
        shared.posted as u64,
    ])
}

// How the row of a call begins that hands its ring on.
pub fn ring_row(answer: Answer, shared: Ring) -> Row {
    let answer = u64::from(number_of(answer));
    row_of(&[answer, shared.head as u64, shared.posted as u64])
}

// What was read behind a row; the part is the message, wherever it lies.
pub fn with_reading(row: Row, reading: Reading, part: &[u8]) -> Row {
    row.and(&[
        u64::from(reading.error),
        u64::from(reading.value),
        u64::from_le_bytes(reading.cookie),
        u64::from(reading.buf),
        part.len() as u64,
        sum_of(part, part.len()),
    ])
}
