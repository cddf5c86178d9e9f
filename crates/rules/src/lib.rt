// Rules that all queues share, and why a call refuses.
#![tactic(auto)]

ghost use Rattle.std.specs.Prelude.{◌≡◌, cond, ◌-◌, ◌^◌, ◌≤◌, eqb};
ghost use Rattle.rules.specs.Address.{address_wrong};
ghost use Rattle.rules.specs.Rules.{number, number_of};

// Why a call refuses: the causes of the paper's numbers from 1 on, in their order.
#[derive(Clone, Copy, Debug, PartialEq, Eq)]
pub enum Refusal {
    WrongRecord,
    WrongAddress,
    NoRoom,
    NotYet,
    Contradiction,
    WrongPieces,
    WrongRequest,
    Crowded,
    WrongInterrupt,
    WrongLimit,
    WrongLength,
    AfterShutdown,
}

// What a call answers: done, or why it refuses.
pub type Answer = Result<(), Refusal>;

impl From<Refusal> for u8 {
    ghost from_gives = { λ r n. n ≡ number r };

    fn from(refusal: Refusal) -> u8 {
        match refusal {
            Refusal::WrongRecord => 1,
            Refusal::WrongAddress => 2,
            Refusal::NoRoom => 3,
            Refusal::NotYet => 4,
            Refusal::Contradiction => 5,
            Refusal::WrongPieces => 6,
            Refusal::WrongRequest => 7,
            Refusal::Crowded => 8,
            Refusal::WrongInterrupt => 9,
            Refusal::WrongLimit => 10,
            Refusal::WrongLength => 11,
            Refusal::AfterShutdown => 12,
        }
    }
}

// The paper's number of an answer: 0 is done.
pub fn number_of(answer: Answer) -> u8
    ensures { result ≡ number_of answer }
{
    match answer {
        Ok(()) => 0,
        Err(refusal) => u8::from(refusal),
    }
}

// The largest 64-bit number.
const LAST: u64 = u64::MAX;

// The bytes from an address to the end of memory; none at address 0.
fn reach(address: u64) -> u64
    ensures { result ≡ cond (eqb address 0) 0 (2 ^ 64 - address) }
{
    if address == 0 { 0 } else { LAST - address + 1 }
}

// Answer 2's cause, for one byte or more. The sum is not made, since it may not fit; and as nothing fits at address 0, one comparison says both.
pub fn address_wrong(address: u64, length: u64) -> bool
    requires { 1 ≤ length }
    ensures { result ≡ address_wrong address length }
{
    reach(address) < length
}
