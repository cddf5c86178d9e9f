// Reclaim: the answer first, then the record moves on.
ghost use Rattle.std.specs.Prelude.{◌≡◌};
ghost use Rattle.transmit.specs.Reclaim.{reclaim_answer, reclaim_of};

use crate::{Reclaimed, TxQueue};
use rules::{Answer, Refusal};

impl TxQueue {
    #[tactic(auto, unfolding(crate::specs::Reclaim::reclaim_answer, done::specs::Marks::done_answer))]
    fn reclaim_answer(self, ring: &[u64], tokens: &[u64], counts: &[u16]) -> Answer
        ensures { result ≡ reclaim_answer self ring.now tokens.now counts.now }
    {
        if !self.lent_ok(ring.len(), tokens.len(), counts.len()) {
            return Err(Refusal::WrongRecord);
        }
        done::answer(self.shared, ring, counts)
    }

    // Answers 1, 4 (nothing posted), 5 or 4 (not yet done), the first whose cause holds, or 0; a refusal changes nothing.
    #[tactic(auto, unfolding(crate::specs::Reclaim::reclaim_of))]
    pub fn reclaim(self, ring: &[u64], tokens: &[u64], counts: &[u16]) -> Reclaimed
        ensures { result ≡ reclaim_of self ring.now tokens.now counts.now }
    {
        let head = self.shared.head;
        let answer = self.reclaim_answer(ring, tokens, counts);
        if answer.is_err() {
            return Reclaimed {
                answer,
                queue: self,
                token: 0,
                count: 0,
            };
        }
        let count = counts[head] as usize;
        Reclaimed {
            answer,
            queue: TxQueue {
                shared: self.shared.advanced(count),
                ..self
            },
            token: tokens[head],
            count,
        }
    }
}
