// Rounds of receiving: posts, the device's write-backs, and takes. A part of the program `rounds`: what it prints is compared.
#![tactic(auto)]

use measure::{MOST_SLOTS, device, within};
use receive::{Posted, RxQueue, Taken};
use receive_run::Run;
use scan::PACKET_SLOTS;

// What a run is asked with: packets of so many slots.
#[derive(Clone, Copy)]
struct Asked {
    slots: u64,
    idle: bool,
    rounds: u64,
}

fn address(i: u64) -> u64 {
    0x100000 | (i % 4096) << 11
}

// Kept: in a struct of the lent ring, list and run, with methods, five slots more a round cost 621 instructions against 540.
fn post(queue: RxQueue, ring: &mut [u64], list: &mut [u64], i: u64, idle: bool) -> Posted {
    if idle {
        Posted {
            answer: Ok(()),
            queue,
        }
    } else {
        queue.post(ring, list, address(i))
    }
}

// One post, and the device's write-back.
fn fill(run: Run, ring: &mut [u64], list: &mut [u64], i: u64, word1: u64, idle: bool) -> Run {
    let posted = post(run.queue, ring, list, i, idle);
    device::write_back(ring, run.at, i, word1);
    Run {
        queue: posted.queue,
        sum: run.sum.with(posted.answer),
        at: device::further(run.at, 1, list.len()),
    }
}

// A take, and the sum over it.
// Kept: its twin in burst_rounds says what a shared one costs.
fn hand_up(run: Run, ring: &[u64], list: &[u64], seen: Taken, idle: bool) -> Run {
    let taken = run.take(ring, list, seen, idle);
    Run {
        queue: taken.queue,
        sum: packet_sum::taken(run.sum, taken),
        at: run.at,
    }
}

// The packet that an idle run sums up, one that no compiler knows.
fn one_packet(run: Run, ring: &mut [u64], list: &mut [u64], rounds: u64) -> Taken {
    let filled = fill(run, ring, list, rounds, device::last_word(rounds), false);
    filled.queue.take(ring, list)
}

// The slots of a packet but its last.
fn fill_middle(begun: Run, ring: &mut [u64], list: &mut [u64], asked: Asked, i: u64) -> Run {
    let mut run = begun;
    for _ in 1..asked.slots {
        run = fill(run, ring, list, i, device::middle_word(), asked.idle);
    }
    run
}

// What ends a packet of so many slots: a last slot behind the slots with data is empty.
fn end_word(slots: u64, i: u64) -> u64 {
    if slots < PACKET_SLOTS as u64 {
        device::last_word(i)
    } else {
        device::empty_word()
    }
}

// A packet posted, written back and taken.
fn one_round(
    begun: Run,
    ring: &mut [u64],
    list: &mut [u64],
    seen: Taken,
    asked: Asked,
    i: u64,
) -> Run {
    let middle = fill_middle(begun, ring, list, asked, i);
    let full = fill(middle, ring, list, i, end_word(asked.slots, i), asked.idle);
    hand_up(full, ring, list, seen, asked.idle)
}

fn repeat(begun: Run, ring: &mut [u64], list: &mut [u64], seen: Taken, asked: Asked) -> Run {
    let mut run = begun;
    for i in 0..asked.rounds {
        run = one_round(run, ring, list, seen, asked, i);
    }
    run
}

fn answer(ring: &mut [u64], list: &mut [u64], asked: Asked) -> u64 {
    let begun = Run::start(list.len());
    let seen = one_packet(begun, ring, list, asked.rounds);
    repeat(begun, ring, list, seen, asked).end(ring)
}

// So many rounds on a ring of so many slots, a packet a round, each of so many slots.
pub fn rounds(size: u64, slots: u64, idle: bool, rounds: u64) -> u64 {
    let mut ring = [0u64; 2 * MOST_SLOTS];
    let mut list = [0u64; MOST_SLOTS];
    let size = within(size, MOST_SLOTS);
    let words = 2 * size;
    let asked = Asked {
        slots,
        idle,
        rounds,
    };
    answer(&mut ring[..words], &mut list[..size], asked)
}
