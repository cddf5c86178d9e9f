// Decimal numbers as text, read from a word.
#![tactic(auto)]

ghost use Rattle.std.specs.Prelude.{◌≡◌};
ghost use Rattle.decimal.specs.Numbers.{next_read, number_of, read_behind};

// The most digits that a number may have.
const LONGEST: usize = 20;

const ZERO: u8 = b'0';

// A number with one digit more behind it, where the byte is a digit and the number below 2^64.
// Kept: a comparison and no `checked_add`, since the edit number_largest makes it `<`.
fn next_read(sofar: u64, byte: u8) -> Option<u64>
    ensures { result ≡ next_read sofar byte }
{
    if byte.is_ascii_digit() {
        let digit = u64::from(byte - ZERO);
        let tens = sofar.checked_mul(10)?;
        if digit <= u64::MAX - tens {
            Some(tens + digit)
        } else {
            None
        }
    } else {
        None
    }
}

// The number that all bytes of a word write.
fn read(word: &[u8]) -> Option<u64>
    ensures { result ≡ read_behind 0 word.now }
{
    let mut sofar = 0;
    for byte in word {
        sofar = next_read(sofar, *byte)?;
    }
    Some(sofar)
}

// The number that a whole word writes, where it is one.
pub fn number_of(word: &[u8]) -> Option<u64>
    ensures { result ≡ number_of word.now }
{
    if (1 <= word.len()) & (word.len() <= LONGEST) {
        read(word)
    } else {
        None
    }
}
