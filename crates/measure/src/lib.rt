// What the rounds of each operation share: a number over all results, the device's side of the rings, and the pieces of a packet. A part of the program
// `rounds`: what it prints is compared.
#![tactic(auto)]

ghost use Rattle.std.specs.Prelude.{◌≤◌};

pub mod checksum;
pub mod device;
pub mod pieces;

// The largest ring.
pub const MOST_SLOTS: usize = 4096;

// A number that a run is asked with, or the most that it may be.
pub fn within(n: u64, most: usize) -> usize
    ensures { result ≤ most }
{
    n.min(most as u64) as usize
}
