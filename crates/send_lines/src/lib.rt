// The lines of a script that are for the transmit queue: its record, and how much of its memory is lent. A part of the program `probe`:
// what it prints is compared.
#![tactic(auto)]

use command::Command;
use parts::{first, first_mut, store};
use request::{IpKind, L4Kind, Request};
use ring::Queue;
use script::{
    GIVEN, Numbers, RING, Row, SLOTS, asked_row, fresh_row, poke_from, queue_of, queue_row, row_of,
};
use sum::sum_of;
use transmit::TxQueue;

// The transmit queue, its ring, its tokens and its slot counts, and how much of each is lent.
// Kept: Rx and Tx have only the tail lines and the sums alike; a trait would have a method for each other call. So SendSide and ReceiveSide.
#[derive(Clone, Copy)]
pub struct Tx {
    queue: TxQueue,
    ring: [u64; RING],
    tokens: [u64; SLOTS],
    counts: [u16; SLOTS],
    ring_lent: usize,
    tokens_lent: usize,
    counts_lent: usize,
}

// Any number above 3 is the last kind's: the form of a line has refused it before.
fn request(numbers: &Numbers) -> Request {
    Request {
        ip: IpKind::try_from(numbers[1]).unwrap_or(IpKind::Ipv4Checksum),
        l4: L4Kind::try_from(numbers[2]).unwrap_or(L4Kind::Udp),
        mac_length: numbers[3],
        ip_length: numbers[4],
        l4_length: numbers[5],
        vlan: numbers[6] == 1,
        tag: numbers[7],
        segmented: numbers[8] == 1,
        mss: numbers[9],
        tlen: numbers[10],
    }
}

impl Tx {
    // Nothing asked for yet, and nothing lent.
    pub fn new() -> Tx {
        Tx {
            queue: TxQueue {
                shared: Queue::empty(0, 0),
                frame: 0,
            },
            ring: [0; RING],
            tokens: [0; SLOTS],
            counts: [0; SLOTS],
            ring_lent: 0,
            tokens_lent: 0,
            counts_lent: 0,
        }
    }

    // A fresh queue has its whole memory lent, where it is one.
    fn fresh(&mut self, numbers: &Numbers) -> Row {
        let fresh = TxQueue::fresh(
            numbers[0] as usize,
            numbers[1] as usize,
            numbers[2] as usize,
        );
        let shared = fresh.queue.shared;
        self.queue = fresh.queue;
        if fresh.answer.is_ok() {
            self.ring_lent = shared.size.wrapping_add(shared.size);
            self.tokens_lent = shared.size;
            self.counts_lent = shared.size;
        }
        fresh_row(fresh.answer, shared, fresh.queue.frame)
    }

    // The record and the lent lengths that a line hands in.
    fn hand_in(&mut self, numbers: &Numbers) {
        self.queue = TxQueue {
            shared: queue_of(numbers),
            frame: numbers[6] as usize,
        };
        self.ring_lent = numbers[7] as usize;
        self.tokens_lent = numbers[8] as usize;
        self.counts_lent = numbers[9] as usize;
    }

    // A send's addresses stand behind its first numbers, and its lengths behind those.
    fn send(&mut self, numbers: &Numbers) -> Row {
        let Tx {
            queue,
            ring,
            tokens,
            counts,
            ring_lent,
            tokens_lent,
            counts_lent,
        } = self;
        let pieces = &numbers[GIVEN..];
        let addresses = first(pieces, numbers[11] as usize);
        let behind = &pieces[addresses.len()..];
        let sent = queue.send(
            first_mut(ring, *ring_lent),
            first_mut(tokens, *tokens_lent),
            first_mut(counts, *counts_lent),
            addresses,
            first(behind, numbers[12] as usize),
            numbers[0],
            request(numbers),
        );
        *queue = sent.queue;
        queue_row(sent.answer, sent.queue.shared).and(&[sent.slots as u64])
    }

    fn reclaim(&mut self) -> Row {
        let reclaimed = self.queue.reclaim(
            first(&self.ring, self.ring_lent),
            first(&self.tokens, self.tokens_lent),
            first(&self.counts, self.counts_lent),
        );
        self.queue = reclaimed.queue;
        queue_row(reclaimed.answer, reclaimed.queue.shared).and(&[
            reclaimed.token,
            reclaimed.count as u64,
        ])
    }

    fn sums(&self) -> Row {
        row_of(&[
            sum_of(&self.ring, self.ring_lent),
            sum_of(&self.tokens, self.tokens_lent),
            sum_of(&self.counts, self.counts_lent),
        ])
    }

    // What a line that has no answer leaves of the record and the memory; a line with a slot count above 16 bits is a bad one.
    fn set(&mut self, command: Command, numbers: &Numbers) {
        let i = numbers[0] as usize;
        match command {
            Command::TxSet => self.hand_in(numbers),
            Command::TxPoke => store(&mut self.ring, i, numbers[1]),
            Command::TxToken => store(&mut self.tokens, i, numbers[1]),
            Command::TxCount => poke_from(&mut self.counts, i, numbers[1]),
            _ => {}
        }
    }

    // The commands of the transmit queue; any other leaves all as it is.
    pub fn line(&mut self, command: Command, numbers: &Numbers) -> Option<Row> {
        self.set(command, numbers);
        match command {
            Command::Tx => Some(self.fresh(numbers)),
            Command::Send => Some(self.send(numbers)),
            Command::Reclaim => Some(self.reclaim()),
            Command::TxTail => Some(asked_row(self.queue.tail_value())),
            Command::TxReg => Some(asked_row(self.queue.tail_register())),
            Command::TxSum => Some(self.sums()),
            _ => None,
        }
    }
}
