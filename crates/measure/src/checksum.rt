// One number over all results of a run, so that no part of them is left uncomputed.
ghost use Rattle.std.specs.Prelude.{◌≡◌, ℕ};
ghost use Rattle.std.specs.Int.{from_bool};
ghost use Rattle.rules.specs.Rules.{number_of};
ghost use Rattle.measure.specs.Checksum.{with_number, with_numbers, with_record};

use ring::Queue;
use rules::Answer;

// A result that is summed up, as a number.
pub trait Told {
    ghost number: { Self → ℕ };

    fn told(self) -> u64
        ensures { result ≡ number self };
}

// Kept: an impl a type, most of them alike; an impl that a macro writes is refused.
impl Told for u64 {
    ghost number = { λ n. n };

    fn told(self) -> u64 {
        self
    }
}

impl Told for u32 {
    ghost number = { λ n. n };

    fn told(self) -> u64 {
        u64::from(self)
    }
}

impl Told for u16 {
    ghost number = { λ n. n };

    fn told(self) -> u64 {
        u64::from(self)
    }
}

impl Told for u8 {
    ghost number = { λ n. n };

    fn told(self) -> u64 {
        u64::from(self)
    }
}

impl Told for bool {
    ghost number = { from_bool };

    fn told(self) -> u64 {
        u64::from(self)
    }
}

impl Told for usize {
    ghost number = { λ n. n };

    fn told(self) -> u64 {
        self as u64
    }
}

impl Told for Answer {
    ghost number = { number_of };

    fn told(self) -> u64 {
        u64::from(rules::number_of(self))
    }
}

// The number as far as a run has come.
#[derive(Clone, Copy, Debug, Default, PartialEq, Eq)]
pub struct Sum(pub u64);

impl Sum {
    pub fn with<T: Told>(self, x: T) -> Sum
        ensures { result ≡ with_number self (T.number x) }
    {
        Sum(self.0.rotate_left(7).wrapping_add(x.told()))
    }

    pub fn with_record(self, queue: Queue) -> Sum
        ensures { result ≡ with_record self queue }
    {
        self.with(queue.queue)
            .with(queue.size)
            .with(queue.head)
            .with(queue.posted)
            .with(queue.ever_posted)
            .with(queue.ever_returned)
    }

    // Lent memory as a run left it.
    pub fn with_each<T: Told + Copy>(self, list: &[T]) -> Sum
        ensures { result ≡ with_numbers T.number self list.now }
    {
        list.iter().fold(self, |sum, &x| sum.with(x))
    }
}
