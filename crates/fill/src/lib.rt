// The descriptors of a send in the ring.
#![tactic(auto)]

ghost use Rattle.std.specs.Prelude.{◌≡◌, [], ◌∷◌, ◌+◌, ◌-◌, ◌*◌, ◌<◌, length};
ghost use Rattle.slots.specs.Memory.{store, store_run};
ghost use Rattle.slots.specs.Steps.{Step};
ghost use Rattle.request.specs.Request.{slots_of};
ghost use Rattle.fill.specs.Descriptors.{piece_numbers, context_numbers, descriptor};
ghost use Rattle.fill.specs.Steps.{Room, Filled, leading_numbers};

use descriptor::LENGTH;
use request::{Request, piece_word, segmentation_word};

// The two words of a slot.
fn put_slot(ring: &mut [u64], slot: usize, first: u64, second: u64)
    requires { 2 * slot + 1 < length ring.old }
    ensures { ring.new ≡ store 2 ring.old slot (first ∷ second ∷ []) }
{
    ring[2 * slot] = first;
    ring[2 * slot + 1] = second;
}

// The pieces before the last one, from slot start on; then the slot behind them. Their words 1 are alike but for the length.
// Kept: ring, size and slot one by one, here and below: a struct that holds a lent slice needs a walk by hand at each caller (docs/DECISIONS.md).
fn put_leading(
    ring: &mut [u64],
    size: usize,
    start: usize,
    addresses: &[u64],
    lengths: &[u64],
    alike: u64,
) -> usize
    requires { Room ring.old addresses.now lengths.now size start (length lengths.now) }
    ensures { Filled ring.old ring.new (leading_numbers alike addresses.now lengths.now) size start (length lengths.now - 1) result }
{
    let last = lengths.len() - 1;
    let mut at = start;
    for (&address, &length) in addresses.iter().zip(&lengths[..last]) {
        put_slot(ring, at, address, alike | length << LENGTH);
        at = slots::next(at, size);
    }
    at
}

// All pieces, from slot start on.
fn put_pieces(
    ring: &mut [u64],
    size: usize,
    start: usize,
    addresses: &[u64],
    lengths: &[u64],
    request: Request,
)
    requires { Room ring.old addresses.now lengths.now size start (length lengths.now) }
    ensures { ring.new ≡ store_run 2 size (piece_numbers request addresses.now lengths.now) ring.old start (length lengths.now) }
{
    let last = lengths.len() - 1;
    let word = piece_word(request, lengths[last], true);
    let alike = piece_word(request, 0, false);
    let slot = put_leading(ring, size, start, addresses, lengths, alike);
    put_slot(ring, slot, addresses[last], word);
}

// The context descriptor at the tail if segmented; then the slot where the pieces begin.
fn put_context(ring: &mut [u64], size: usize, tail: usize, request: Request) -> usize
    requires step { Step tail size 1 }
    requires ring_len { length ring.old ≡ 2 * size }
    ensures { Filled ring.old ring.new (λ _. context_numbers request) size tail (slots_of request 0) result }
{
    if request.segmented {
        let word = segmentation_word(request);
        put_slot(ring, tail, 0, word);
        slots::next(tail, size)
    } else {
        tail
    }
}

// One context descriptor before the pieces if segmented.
pub fn put_descriptors(
    ring: &mut [u64],
    size: usize,
    tail: usize,
    addresses: &[u64],
    lengths: &[u64],
    request: Request,
)
    requires { Room ring.old addresses.now lengths.now size tail (slots_of request (length lengths.now)) }
    ensures { ring.new ≡ store_run 2 size (descriptor request addresses.now lengths.now) ring.old tail (slots_of request (length lengths.now)) }
{
    let start = put_context(ring, size, tail, request);
    put_pieces(ring, size, start, addresses, lengths, request);
}
