// A flag of a word, read at its place. The laws of fields over position and width are theory, and stand in specs/ and proofs/.
#![tactic(auto)]

ghost use Rattle.std.specs.Prelude.{◌≡◌, ◌<◌, eqb};
ghost use Rattle.field.specs.Field.{field_of};

// The flag at a bit of a word.
pub fn flag(word: u64, at: u64) -> bool
    requires { at < 64 }
    ensures { result ≡ eqb (field_of at 1 word) 1 }
{
    (word >> at) % 2 == 1
}
