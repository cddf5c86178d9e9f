// Decimal numbers as text, put into a text.
#![tactic(auto)]

ghost use Rattle.std.specs.Prelude.{◌≡◌, ◌+◌, ◌<◌, length};
ghost use Rattle.std.proofs.lemmas.List.Edits.{sets};
ghost use Rattle.digits.specs.Digits.{digits_of, Spelled};
ghost use Rattle.digits.specs.Put.{fits_at, Put};

const ZERO: u8 = b'0';

// How many digits a number is written with. Most numbers of an answer have one, which needs no logarithm.
pub fn digit_count(n: u64) -> usize
    ensures { result ≡ length (digits_of n) }
{
    1 + if n < 10 { 0 } else { n.ilog10() as usize }
}

// Whether so many bytes fit a text so long from this place on.
pub fn has_room(long: usize, at: usize, size: usize) -> bool
    ensures { result ≡ fits_at long at size }
{
    if at <= long { size <= long - at } else { false }
}

fn digit(d: u64) -> u8
    requires { d < 10 }
    ensures { result ≡ 48 + d }
{
    ZERO + d as u8
}

// The digits of a number, the last one first; the first one is what is left, and needs no division.
fn spell(out: &mut [u8], at: usize, count: usize, n: u64)
    requires { Spelled out.old at count n }
    ensures { out.new ≡ sets out.old at (digits_of n) }
{
    let mut rest = n;
    for left in (1..count).rev() {
        out[at + left] = digit(rest % 10);
        rest /= 10;
    }
    out[at] = digit(rest);
}

// Puts a number's digits at a place, and answers the place after them; where they do not fit,
// nothing is put, and the answer is the place itself.
// Kept: the place itself where nothing is put, and no Option, here and in row: `Put` says it, and a caller goes on from the place either way.
pub fn put_number(out: &mut [u8], at: usize, n: u64) -> usize
    ensures { Put out.old at (digits_of n) result out.new }
{
    let count = digit_count(n);
    if has_room(out.len(), at, count) {
        spell(out, at, count, n);
        at + count
    } else {
        at
    }
}
