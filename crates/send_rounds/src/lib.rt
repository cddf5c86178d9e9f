// Rounds of sending: sends, the device's mark in the last slot, and reclaims. A part of the program `rounds`: what it prints is compared.
#![tactic(auto)]

use measure::checksum::Sum;
use measure::{MOST_SLOTS, device, pieces, within};
use request::{IpKind, L4Kind, Request};
use transmit::{Reclaimed, Sent, TxQueue};

const MOST_PIECES: usize = 4094;

const FRAME: usize = 1518;

// The first piece of a plain send, and of a segmented send, where it is the header.
const PLAIN: u64 = 100;

const HEADER: u64 = 54;

// What a run is asked with: the bytes of the first piece and of those behind it.
// Kept: MSS 0 is a plain send, as the line that asks for the run has it; an Option would be made of the number and turned back into it.
#[derive(Clone, Copy)]
pub struct Asked {
    first: u64,
    behind: u64,
    mss: u64,
    idle: bool,
    rounds: u64,
}

impl Asked {
    pub fn new(behind: u64, mss: u64, idle: bool, rounds: u64) -> Asked {
        Asked {
            first: if mss == 0 { PLAIN } else { HEADER },
            behind,
            mss,
            idle,
            rounds,
        }
    }

    // A request with a VLAN tag that is another each round.
    fn request(self, i: u64) -> Request {
        Request {
            ip: IpKind::Ipv4Checksum,
            l4: L4Kind::Tcp,
            mac_length: 14,
            ip_length: 20,
            l4_length: 20,
            vlan: true,
            tag: i % 4096,
            segmented: self.mss != 0,
            mss: self.mss,
            tlen: if self.mss == 0 { 0 } else { self.behind },
        }
    }
}

// The record and the sum as far as a run has come, and the slot of the last packet's end.
#[derive(Clone, Copy)]
struct Run {
    queue: TxQueue,
    sum: Sum,
    last: usize,
}

impl Run {
    fn start(size: usize) -> Run {
        let fresh = TxQueue::fresh(0, size, FRAME);
        Run {
            queue: fresh.queue,
            sum: Sum::default().with(fresh.answer),
            last: size.saturating_sub(1),
        }
    }

    fn end(self, ring: &[u64]) -> u64 {
        let q = self.queue;
        self.sum
            .with_record(q.shared)
            .with(q.frame)
            .with_each(ring)
            .0
    }
}

// Kept: structs of the lent slices, with methods, cost a round of 45 pieces 2,175 instructions against 2,049, one of 8 pieces 431 against 418.
fn send(
    queue: TxQueue,
    ring: &mut [u64],
    tokens: &mut [u64],
    counts: &mut [u16],
    addresses: &[u64],
    lengths: &[u64],
    token: u64,
    asked: Asked,
) -> Sent {
    if asked.idle {
        Sent {
            answer: Ok(()),
            queue,
            slots: lengths.len(),
        }
    } else {
        let request = asked.request(token);
        queue.send(ring, tokens, counts, addresses, lengths, token, request)
    }
}

fn reclaim(
    queue: TxQueue,
    ring: &[u64],
    tokens: &[u64],
    counts: &[u16],
    token: u64,
    idle: bool,
) -> Reclaimed {
    if idle {
        Reclaimed {
            answer: Ok(()),
            queue,
            token,
            count: tokens.len(),
        }
    } else {
        queue.reclaim(ring, tokens, counts)
    }
}

fn hand_over(
    run: Run,
    ring: &mut [u64],
    tokens: &mut [u64],
    counts: &mut [u16],
    addresses: &[u64],
    lengths: &[u64],
    i: u64,
    asked: Asked,
) -> Run {
    let sent = send(
        run.queue, ring, tokens, counts, addresses, lengths, i, asked,
    );
    Run {
        queue: sent.queue,
        sum: run.sum.with(sent.answer).with(sent.slots),
        last: device::further(run.last, sent.slots, tokens.len()),
    }
}

fn get_back(run: Run, ring: &[u64], tokens: &[u64], counts: &[u16], i: u64, idle: bool) -> Run {
    let back = reclaim(run.queue, ring, tokens, counts, i, idle);
    Run {
        queue: back.queue,
        sum: run.sum.with(back.answer).with(back.token).with(back.count),
        last: run.last,
    }
}

// A packet sent, marked and reclaimed.
fn one_round(
    begun: Run,
    ring: &mut [u64],
    tokens: &mut [u64],
    counts: &mut [u16],
    addresses: &[u64],
    lengths: &[u64],
    i: u64,
    asked: Asked,
) -> Run {
    let run = hand_over(begun, ring, tokens, counts, addresses, lengths, i, asked);
    device::mark(ring, run.last);
    get_back(run, ring, tokens, counts, i, asked.idle)
}

fn repeat(
    begun: Run,
    ring: &mut [u64],
    tokens: &mut [u64],
    counts: &mut [u16],
    addresses: &mut [u64],
    lengths: &mut [u64],
    asked: Asked,
) -> Run {
    let mut run = begun;
    for i in 0..asked.rounds {
        pieces::lay_first(addresses, lengths, i, asked.first);
        run = one_round(run, ring, tokens, counts, addresses, lengths, i, asked);
    }
    run
}

fn answer(
    ring: &mut [u64],
    tokens: &mut [u64],
    counts: &mut [u16],
    addresses: &mut [u64],
    lengths: &mut [u64],
    asked: Asked,
) -> u64 {
    pieces::lay_out(addresses, lengths, asked.behind);
    let begun = Run::start(tokens.len());
    let run = repeat(begun, ring, tokens, counts, addresses, lengths, asked);
    run.end(ring)
}

// What is asked of a ring of so many slots, each packet in so many pieces.
pub fn rounds(size: u64, pieces: u64, asked: Asked) -> u64 {
    let mut ring = [0u64; 2 * MOST_SLOTS];
    let mut tokens = [0u64; MOST_SLOTS];
    let mut counts = [0u16; MOST_SLOTS];
    let mut addresses = [0u64; MOST_PIECES];
    let mut lengths = [0u64; MOST_PIECES];
    let size = within(size, MOST_SLOTS);
    let words = 2 * size;
    let pieces = within(pieces, MOST_PIECES);
    answer(
        &mut ring[..words],
        &mut tokens[..size],
        &mut counts[..size],
        &mut addresses[..pieces],
        &mut lengths[..pieces],
        asked,
    )
}
