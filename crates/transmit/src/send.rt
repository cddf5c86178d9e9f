// Send: the answer first, then the descriptors, the token and the slot count.
ghost use Rattle.std.specs.Prelude.{◌≡◌, ◌≤◌};
ghost use Rattle.request.specs.Request.{slots_of};
ghost use Rattle.pieces.specs.Pieces.{most_pieces};
ghost use Rattle.transmit.specs.Send.{send_answer, SentAs};

use crate::{Sent, TxQueue};
use fill::put_descriptors;
use packet::judge;
use request::Request;
use rules::{Answer, Refusal};

// The slots that so many pieces take.
fn slots_of(request: Request, pieces: usize) -> usize
    requires { pieces ≤ most_pieces }
    ensures { result ≡ slots_of request pieces }
{
    if request.segmented {
        pieces + 1
    } else {
        pieces
    }
}

impl TxQueue {
    #[tactic(auto, unfolding(crate::specs::Send::send_answer))]
    fn send_answer(
        self,
        ring_length: usize,
        tokens_length: usize,
        counts_length: usize,
        addresses: &[u64],
        lengths: &[u64],
        request: Request,
    ) -> Answer
        ensures { result ≡ send_answer self ring_length tokens_length counts_length addresses.now lengths.now request }
    {
        if !self.lent_ok(ring_length, tokens_length, counts_length) {
            return Err(Refusal::WrongRecord);
        }
        judge(addresses, lengths, self.frame as u64, request)?;
        if self.shared.no_room(slots_of(request, lengths.len())) {
            return Err(Refusal::NoRoom);
        }
        Ok(())
    }

    // Answers 1, 6, 2, 7, 8 or 3, the first whose cause holds, or 0; a refusal changes nothing.
    // Kept: 01 lends the ring and two companion lists, and has "the covered two-slice send": these slices, and their lengths in `lent_ok`, go one by one.
    pub fn send(
        self,
        ring: &mut [u64],
        tokens: &mut [u64],
        counts: &mut [u16],
        addresses: &[u64],
        lengths: &[u64],
        token: u64,
        request: Request,
    ) -> Sent
        ensures { SentAs self ring.old tokens.old counts.old addresses.now lengths.now request token result ring.new tokens.new counts.new }
    {
        let answer = self.send_answer(
            ring.len(),
            tokens.len(),
            counts.len(),
            addresses,
            lengths,
            request,
        );
        if answer.is_err() {
            return Sent {
                answer,
                queue: self,
                slots: 0,
            };
        }
        let tail = self.shared.tail();
        let slots = slots_of(request, lengths.len());
        put_descriptors(ring, self.shared.size, tail, addresses, lengths, request);
        tokens[tail] = token;
        counts[tail] = slots as u16;
        Sent {
            answer,
            queue: TxQueue {
                shared: self.shared.grown(slots),
                ..self
            },
            slots,
        }
    }
}
