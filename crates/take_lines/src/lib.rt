// The lines of a script that take packets from the receive queue: take, and burst with its list. A part of the program `probe`: what it
// prints is compared.
#![tactic(auto)]

use command::Command;
use parts::{first_mut, store};
use receive::Packet;
use receive_lines::Rx;
use script::{Numbers, OUT, Row, queue_row};
use sum::sum_of;
use writeback::WriteBack;

// A packet's slots behind a row.
fn with_slots(row: Row, packet: Packet) -> Row {
    let mut row = row.and(&[packet.count as u64, packet.total as u64]);
    for (address, length) in packet.addresses.iter().zip(packet.lengths.iter()) {
        row = row.and(&[*address, *length as u64]);
    }
    row
}

// The fields of a packet's last slot behind a row.
fn with_fields(row: Row, last: WriteBack) -> Row {
    row.and(&[
        u64::from(last.tag),
        u64::from(last.hash),
        u64::from(last.dd),
        u64::from(last.eop),
        u64::from(last.l2tag1p),
        u64::from(last.l3l4p),
        u64::from(last.crcp),
        u64::from(last.umbcast),
        u64::from(last.fltstat),
        u64::from(last.lpbk),
        u64::from(last.ipv6exadd),
        u64::from(last.int_udp_0),
        u64::from(last.l3),
        u64::from(last.l4),
        u64::from(last.oversize),
        u64::from(last.ptype),
        u64::from(last.family),
    ])
}

fn take(rx: &mut Rx) -> Row {
    let (ring, list) = rx.memory.lent();
    let taken = rx.queue.take(ring, list);
    rx.queue = taken.queue;
    let row = with_slots(queue_row(taken.answer, taken.queue.shared), taken.packet);
    with_fields(row, taken.packet.last)
}

// The record is carried on whatever the answer: packets taken before a 4 or 5 stand. The sum is of the whole list, so that it tells a
// write behind what is lent too.
fn burst(rx: &mut Rx, limit: usize, length: usize) -> Row {
    let Rx { queue, memory, out } = rx;
    let (ring, list) = memory.lent();
    let burst = queue.burst(ring, list, first_mut(out, length), limit);
    *queue = burst.queue;
    queue_row(burst.answer, burst.queue.shared).and(&[
        burst.packets as u64,
        burst.examined as u64,
        sum_of(out, OUT),
    ])
}

// The commands that take packets, and the burst's list; any other is for the receive queue's other lines.
pub fn line(rx: &mut Rx, command: Command, numbers: &Numbers) -> Option<Row> {
    match command {
        Command::Take => Some(take(rx)),
        Command::Burst => Some(burst(rx, numbers[0] as usize, numbers[1] as usize)),
        Command::Out => {
            store(&mut rx.out, numbers[0] as usize, numbers[1]);
            None
        }
        _ => rx.line(command, numbers),
    }
}
