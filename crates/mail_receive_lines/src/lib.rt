// The lines of a script that are for the mailbox's receive ring. A part of the program `probe`: what it prints is compared.
#![tactic(auto)]

use command::Command;
use mail_receive::ReceiveRing;
use mail_request::Room;
use mail_ring::Ring;
use mail_rows::{MailMemory, begun, fresh_row, ring_of, ring_row, with_reading};
use parts::first;
use script::{MAIL_BUFFER, Numbers, Row, asked_row, poke_from};

// The receive ring and its memory.
#[derive(Clone, Copy)]
pub struct ReceiveSide {
    queue: ReceiveRing,
    memory: MailMemory,
}

fn room(numbers: &Numbers) -> Room {
    Room {
        length: numbers[0] as usize,
        address: numbers[1],
        si: numbers[3] == 1,
        ei: numbers[4] == 1,
    }
}

impl ReceiveSide {
    // Nothing asked for yet, and nothing lent.
    pub fn new() -> ReceiveSide {
        ReceiveSide {
            queue: ReceiveRing {
                shared: Ring::empty(0),
            },
            memory: mail_rows::memory(),
        }
    }

    fn fresh(&mut self, size: usize) -> Row {
        let fresh = ReceiveRing::fresh(size);
        self.queue = fresh.queue;
        begun(&mut self.memory, fresh.answer, fresh.queue.shared);
        fresh_row(fresh.answer, fresh.queue.shared)
    }

    // The record and the lent lengths that a line hands in.
    fn hand_in(&mut self, numbers: &Numbers) {
        self.queue = ReceiveRing {
            shared: ring_of(numbers),
        };
        self.memory.lend(numbers[3] as usize, numbers[4] as usize);
    }

    fn post(&mut self, numbers: &Numbers, buffer: &[u8]) -> Row {
        let queue = self.queue;
        let (ring, list) = self.memory.lent_mut();
        let lent = first(buffer, numbers[2] as usize);
        let posted = queue.post(ring, list, lent, room(numbers));
        self.queue = posted.queue;
        ring_row(posted.answer, posted.queue.shared)
    }

    // The oldest message, with so much of the buffer lent.
    fn read(&mut self, length: usize, buffer: &[u8]) -> Row {
        let (ring, list) = self.memory.lent();
        let lent = first(buffer, length);
        let message = self.queue.message(ring, list, lent);
        let first = ring_row(message.answer, message.queue.shared);
        let part = mail_reading::part(ring, lent, message.reading);
        let row = with_reading(first, message.reading, part);
        self.queue = message.queue;
        row
    }

    // What a line that has no answer leaves of the record and the memory.
    // Kept: as in mail_send_lines.
    fn set(&mut self, command: Command, numbers: &Numbers) {
        let i = numbers[0] as usize;
        match command {
            Command::MrxSet => self.hand_in(numbers),
            Command::MrxPoke => poke_from(&mut self.memory.ring, i, numbers[1]),
            Command::MrxList => poke_from(&mut self.memory.list, i, numbers[1]),
            _ => {}
        }
    }

    // The commands of the receive ring; any other leaves all as it is.
    pub fn line(
        &mut self,
        command: Command,
        numbers: &Numbers,
        buffer: &[u8; MAIL_BUFFER],
    ) -> Option<Row> {
        self.set(command, numbers);
        match command {
            Command::Mrx => Some(self.fresh(numbers[0] as usize)),
            Command::Mpost => Some(self.post(numbers, buffer)),
            Command::Mread => Some(self.read(numbers[0] as usize, buffer)),
            Command::MrxTail => Some(asked_row(self.queue.tail_value())),
            Command::MrxReg => Some(asked_row(self.queue.tail_register())),
            Command::MrxSum => Some(self.memory.sums()),
            _ => None,
        }
    }
}
