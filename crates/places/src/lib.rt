// The three fields of a write-back's word 1 that a take decides by, each read at its place.
#![tactic(auto)]

ghost use Rattle.std.specs.Prelude.{◌≡◌};
ghost use Rattle.field.specs.Field.{read_at, is_set};
ghost use Rattle.places.specs.Places.{dd_place, eop_place, length_place};

use field::flag;

// Where each begins.
const DD: u64 = 0;

const EOP: u64 = 1;

const LENGTH: u64 = 38;

// How many numbers a field of so many bits holds: reading it leaves the remainder.
const FOURTEEN_BITS: u64 = 1 << 14;

// DD: the device is done with the slot.
// Kept: this and `eop` are the names of 000 for two bits of one function.
pub fn dd(word1: u64) -> bool
    ensures { result ≡ is_set dd_place word1 }
{
    flag(word1, DD)
}

// EOP: the slot is the last of its packet.
pub fn eop(word1: u64) -> bool
    ensures { result ≡ is_set eop_place word1 }
{
    flag(word1, EOP)
}

pub fn length(word1: u64) -> usize
    ensures { result ≡ read_at length_place word1 }
{
    ((word1 >> LENGTH) % FOURTEEN_BITS) as usize
}
