// The step round a ring: from a slot to the one at a distance, and to the next.
#![tactic(auto)]

ghost use Rattle.slots.specs.Steps.{SlotIs, Step};

// The slot at distance k from head, which is less than a lap.
// Kept: 2 * slot and the place behind it are written out in each crate: 01 has a ring lent as 64-bit numbers, and a call for either is no shorter.
pub fn slot(head: usize, size: usize, k: usize) -> usize
    requires { Step head size k }
    ensures { SlotIs head size k result }
{
    let at = head + k;
    if at < size { at } else { at - size }
}

// The slot after another, for what goes from slot to slot: 0 where the sum reaches the size, and nothing is taken away.
pub fn next(at: usize, size: usize) -> usize
    requires { Step at size 1 }
    ensures { SlotIs at size 1 result }
{
    let next = at + 1;
    if next < size { next } else { 0 }
}
