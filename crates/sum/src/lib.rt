// Sums of lists, which stand for their contents.
#![tactic(auto)]

ghost use Rattle.std.specs.Prelude.{◌≡◌, ℕ, map, take};
ghost use Rattle.sum.specs.Sums.{mixed, sum_of};

fn mix(h: u64, x: u64) -> u64
    ensures { result ≡ mixed h x }
{
    h.rotate_left(7) ^ x
}

// A number of a list, of whatever width.
// Kept: a trait beside measure's Told: that one is of the rules' answers too, so one trait for both would have this crate stand on rules.
pub trait Summand: Copy {
    ghost value: { Self → ℕ };

    // A sum with this number behind it.
    fn mixed_into(self, h: u64) -> u64
        ensures { result ≡ mixed h (value self) };
}

impl Summand for u64 {
    ghost value = { λ x. x };

    fn mixed_into(self, h: u64) -> u64 {
        mix(h, self)
    }
}

impl Summand for u32 {
    ghost value = { λ x. x };

    fn mixed_into(self, h: u64) -> u64 {
        let word = u64::from(self);
        mix(h, word)
    }
}

impl Summand for u16 {
    ghost value = { λ x. x };

    fn mixed_into(self, h: u64) -> u64 {
        let count = u64::from(self);
        mix(h, count)
    }
}

impl Summand for u8 {
    ghost value = { λ x. x };

    fn mixed_into(self, h: u64) -> u64 {
        let byte = u64::from(self);
        mix(h, byte)
    }
}

// The sum of the first so many numbers of a list, or of all that there are.
pub fn sum_of<T: Summand>(xs: &[T], count: usize) -> u64
    ensures { result ≡ sum_of (map T.value (take count xs.now)) }
{
    let part = &xs[..count.min(xs.len())];
    let mut h = 0;
    for x in part {
        h = x.mixed_into(h);
    }
    h
}
