// Rounds of polling a ring that is full of packets of one slot: a burst a round, or as many takes. A part of the program `rounds`: what it prints is compared.
#![tactic(auto)]

use measure::checksum::Sum;
use measure::{MOST_SLOTS, device, within};
use receive::{BURST_NUMBERS, Burst, RxQueue, Taken};
use receive_run::Run;
use ring::Queue;

// How the packets of a round are handed up: by a burst, or by as many takes.
#[derive(Clone, Copy, Debug, PartialEq, Eq)]
pub enum By {
    Burst,
    Takes,
}

// What a run is asked with.
#[derive(Clone, Copy)]
struct Asked {
    packets: usize,
    by: By,
    idle: bool,
    rounds: u64,
}

// A packet in each slot of the ring.
fn fill(ring: &mut [u64], size: usize) {
    for at in 0..size {
        let i = at as u64;
        device::write_back(ring, at, i, device::last_word(i));
    }
}

// Ever posted moves with posted, so that the record stays right, and by a difference, so that no compiler knows that it does.
fn with_posted(queue: RxQueue, posted: usize) -> RxQueue {
    let shared = queue.shared;
    let more = (posted as u64).wrapping_sub(shared.posted as u64);
    RxQueue {
        shared: Queue {
            posted,
            ever_posted: shared.ever_posted.wrapping_add(more),
            ..shared
        },
        buffer: queue.buffer,
    }
}

// So many packets wait from head on, the first of them just written.
fn with_packets(run: Run, ring: &mut [u64], packets: usize, i: u64) -> Run {
    let queue = run.queue;
    device::write_back(ring, queue.shared.head, i, device::last_word(i));
    Run {
        queue: with_posted(queue, packets),
        sum: run.sum,
        at: run.at,
    }
}

// A burst; in an idle run the numbers of one that takes every packet.
// Kept: ring and list one by one; receive_rounds says what a struct of them costs.
fn burst(queue: RxQueue, ring: &[u64], list: &[u64], out: &mut [u64], asked: Asked) -> Burst {
    let packets = asked.packets;
    if asked.idle {
        Burst {
            answer: Ok(()),
            queue,
            packets,
            examined: packets,
        }
    } else {
        queue.burst(ring, list, out, packets)
    }
}

// The whole list is summed up, whatever of it the burst wrote.
fn summed(sum: Sum, polled: Burst, out: &[u64; BURST_NUMBERS]) -> Sum {
    sum.with(polled.answer)
        .with(polled.packets)
        .with(polled.examined)
        .with_each(out)
}

fn hand_up_burst(
    run: Run,
    ring: &[u64],
    list: &[u64],
    out: &mut [u64; BURST_NUMBERS],
    asked: Asked,
) -> Run {
    let polled = burst(run.queue, ring, list, out, asked);
    Run {
        queue: polled.queue,
        sum: summed(run.sum, polled, out),
        at: run.at,
    }
}

fn repeat_bursts(begun: Run, ring: &mut [u64], list: &[u64], asked: Asked) -> Run {
    let mut out = [0u64; BURST_NUMBERS];
    let mut run = begun;
    for i in 0..asked.rounds {
        run = with_packets(run, ring, asked.packets, i);
        run = hand_up_burst(run, ring, list, &mut out, asked);
    }
    run
}

// A take, and the sum over it.
// Kept: receive_rounds has its own; a shared one cost a take here 25 instructions more (13,548 a round of 32 against 12,760).
fn hand_up(run: Run, ring: &[u64], list: &[u64], seen: Taken, idle: bool) -> Run {
    let taken = run.take(ring, list, seen, idle);
    Run {
        queue: taken.queue,
        sum: packet_sum::taken(run.sum, taken),
        at: run.at,
    }
}

fn hand_up_each(begun: Run, ring: &[u64], list: &[u64], seen: Taken, asked: Asked) -> Run {
    let mut run = begun;
    for _ in 0..asked.packets {
        run = hand_up(run, ring, list, seen, asked.idle);
    }
    run
}

fn repeat_takes(begun: Run, ring: &mut [u64], list: &[u64], seen: Taken, asked: Asked) -> Run {
    let mut run = begun;
    for i in 0..asked.rounds {
        run = with_packets(run, ring, asked.packets, i);
        run = hand_up_each(run, ring, list, seen, asked);
    }
    run
}

// The packet that an idle run sums up, one that no compiler knows.
fn one_packet(begun: Run, ring: &mut [u64], list: &[u64], rounds: u64) -> Taken {
    let waiting = with_packets(begun, ring, 1, rounds);
    waiting.queue.take(ring, list)
}

fn repeat(begun: Run, ring: &mut [u64], list: &[u64], asked: Asked) -> Run {
    match asked.by {
        By::Burst => repeat_bursts(begun, ring, list, asked),
        By::Takes => {
            let seen = one_packet(begun, ring, list, asked.rounds);
            repeat_takes(begun, ring, list, seen, asked)
        }
    }
}

fn answer(ring: &mut [u64], list: &[u64], asked: Asked) -> u64 {
    fill(ring, list.len());
    let begun = Run::start(list.len());
    repeat(begun, ring, list, asked).end(ring)
}

// So many rounds on a ring of so many slots, so many packets a round.
pub fn rounds(size: u64, packets: u64, by: By, idle: bool, rounds: u64) -> u64 {
    let mut ring = [0u64; 2 * MOST_SLOTS];
    let list = [0u64; MOST_SLOTS];
    let size = within(size, MOST_SLOTS);
    let words = 2 * size;
    let packets = within(packets, MOST_SLOTS);
    let asked = Asked {
        packets,
        by,
        idle,
        rounds,
    };
    answer(&mut ring[..words], &list[..size], asked)
}
