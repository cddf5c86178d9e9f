// The lines of a script that are for the mailbox's send ring. A part of the program `probe`: what it prints is compared.
#![tactic(auto)]

use command::Command;
use mail_request::{Message, Shutdown};
use mail_ring::Ring;
use mail_rows::{MailMemory, begun, fresh_row, ring_of, ring_row, with_reading};
use mail_send::{SendRing, Sent};
use parts::first;
use script::{MAIL_BUFFER, Numbers, Row, asked_row, poke_from};

// The send ring and its memory.
#[derive(Clone, Copy)]
pub struct SendSide {
    queue: SendRing,
    memory: MailMemory,
}

fn message(numbers: &Numbers) -> Message {
    Message {
        buf: numbers[0] == 1,
        length: numbers[1] as usize,
        address: numbers[2],
        si: numbers[4] == 1,
        ei: numbers[5] == 1,
        fe: numbers[6] == 1,
        cookie: numbers[7].to_le_bytes(),
    }
}

fn request(numbers: &Numbers) -> Shutdown {
    Shutdown {
        unloading: numbers[0] == 1,
        si: numbers[1] == 1,
        ei: numbers[2] == 1,
        fe: numbers[3] == 1,
        cookie: numbers[4].to_le_bytes(),
    }
}

impl SendSide {
    // Nothing asked for yet, and nothing lent.
    pub fn new() -> SendSide {
        SendSide {
            queue: SendRing {
                shared: Ring::empty(0),
                shut: false,
            },
            memory: mail_rows::memory(),
        }
    }

    fn fresh(&mut self, size: usize) -> Row {
        let fresh = SendRing::fresh(size);
        self.queue = fresh.queue;
        begun(&mut self.memory, fresh.answer, fresh.queue.shared);
        fresh_row(fresh.answer, fresh.queue.shared).and(&[u64::from(fresh.queue.shut)])
    }

    // The record and the lent lengths that a line hands in.
    fn hand_in(&mut self, numbers: &Numbers) {
        self.queue = SendRing {
            shared: ring_of(numbers),
            shut: numbers[3] == 1,
        };
        self.memory.lend(numbers[4] as usize, numbers[5] as usize);
    }

    fn sent(&mut self, sent: Sent) -> Row {
        self.queue = sent.queue;
        ring_row(sent.answer, sent.queue.shared).and(&[u64::from(sent.queue.shut)])
    }

    fn send(&mut self, numbers: &Numbers, buffer: &[u8]) -> Row {
        let queue = self.queue;
        let (ring, list) = self.memory.lent_mut();
        let lent = first(buffer, numbers[3] as usize);
        let sent = queue.send(ring, list, lent, message(numbers));
        self.sent(sent)
    }

    fn shutdown(&mut self, numbers: &Numbers) -> Row {
        let queue = self.queue;
        let (ring, list) = self.memory.lent_mut();
        let sent = queue.shutdown(ring, list, request(numbers));
        self.sent(sent)
    }

    // The oldest completion, with so much of the buffer lent.
    fn done(&mut self, length: usize, buffer: &[u8]) -> Row {
        let (ring, list) = self.memory.lent();
        let lent = first(buffer, length);
        let completion = self.queue.completion(ring, list, lent);
        let queue = completion.queue;
        let first = ring_row(completion.answer, queue.shared).and(&[
            u64::from(queue.shut),
            u64::from(completion.opcode),
        ]);
        let part = mail_reading::part(ring, lent, completion.reading);
        let row = with_reading(first, completion.reading, part);
        self.queue = queue;
        row
    }

    // What a line that has no answer leaves of the record and the memory.
    // Kept: mail_receive_lines has its own: the commands differ, and so does what is handed in.
    fn set(&mut self, command: Command, numbers: &Numbers) {
        let i = numbers[0] as usize;
        match command {
            Command::MtxSet => self.hand_in(numbers),
            Command::MtxPoke => poke_from(&mut self.memory.ring, i, numbers[1]),
            Command::MtxList => poke_from(&mut self.memory.list, i, numbers[1]),
            _ => {}
        }
    }

    // The commands of the send ring; any other leaves all as it is.
    pub fn line(
        &mut self,
        command: Command,
        numbers: &Numbers,
        buffer: &[u8; MAIL_BUFFER],
    ) -> Option<Row> {
        self.set(command, numbers);
        match command {
            Command::Mtx => Some(self.fresh(numbers[0] as usize)),
            Command::Msend => Some(self.send(numbers, buffer)),
            Command::Mshut => Some(self.shutdown(numbers)),
            Command::Mdone => Some(self.done(numbers[0] as usize, buffer)),
            Command::MtxTail => Some(asked_row(self.queue.tail_value())),
            Command::MtxReg => Some(asked_row(self.queue.tail_register())),
            Command::MtxSum => Some(self.memory.sums()),
            _ => None,
        }
    }
}
