// One number over all that a take hands up. A part of the program `rounds`: what it prints is compared.
#![tactic(auto)]

use measure::checksum::Sum;
use receive::{Packet, Taken};
use writeback::WriteBack;

fn flags(sum: Sum, w: WriteBack) -> Sum {
    let WriteBack { l3, l4, .. } = w;
    sum.with(w.dd)
        .with(w.eop)
        .with(w.l2tag1p)
        .with(w.l3l4p)
        .with(w.crcp)
        .with(w.lpbk)
        .with(w.ipv6exadd)
        .with(w.int_udp_0)
        .with(u64::from(l3))
        .with(u64::from(l4))
        .with(w.oversize)
}

fn write_back(sum: Sum, w: WriteBack) -> Sum {
    flags(sum, w)
        .with(w.tag)
        .with(w.hash)
        .with(w.umbcast)
        .with(w.fltstat)
        .with(w.ptype)
        .with(w.length)
        .with(u64::from(w.family))
}

fn packet(sum: Sum, p: Packet) -> Sum {
    let slots = sum
        .with(p.count)
        .with(p.total)
        .with_each(&p.addresses)
        .with_each(&p.lengths);
    write_back(slots, p.last)
}

pub fn taken(sum: Sum, t: Taken) -> Sum {
    packet(sum.with(t.answer), t.packet)
}
