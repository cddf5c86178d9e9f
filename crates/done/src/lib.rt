// Whether the packet at head is done: the answers of a reclaim whose record and slices have been judged.
#![tactic(auto)]

ghost use Rattle.std.specs.Prelude.{◌≡◌, eqb, length};
ghost use Rattle.field.specs.Field.{field_of};
ghost use Rattle.ring.specs.Steps.{Lent};
ghost use Rattle.done.specs.Marks.{done_answer};

use ring::Queue;
use rules::{Answer, Refusal};

// Bits 3:0 of word 1, which the device sets to the same number once it is done with a packet.
const DONE: u64 = 15;

fn marked(word: u64) -> bool
    ensures { result ≡ eqb (field_of 0 4 word) 15 }
{
    word & 15 == DONE
}

// Answers 4 (nothing posted), 5 or 4 (not yet done), the first whose cause holds, or 0.
#[tactic(auto, unfolding(crate::specs::Marks::done_answer))]
pub fn answer(queue: Queue, ring: &[u64], counts: &[u16]) -> Answer
    requires { Lent queue (length ring.now) (length counts.now) }
    ensures { result ≡ done_answer queue ring.now counts.now }
{
    let head = queue.head;
    let posted = queue.posted;
    if posted == 0 {
        return Err(Refusal::NotYet);
    }
    let count = counts[head] as usize;
    if (count == 0) | (posted < count) {
        return Err(Refusal::Contradiction);
    }
    let last = slots::slot(head, queue.size, count - 1);
    if !marked(ring[2 * last + 1]) {
        return Err(Refusal::NotYet);
    }
    Ok(())
}
