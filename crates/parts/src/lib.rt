// Parts of a text and of any memory, and a number stored in it.
#![tactic(auto)]

ghost use Rattle.std.specs.Prelude.{◌≡◌, set, take};
ghost use Rattle.std.proofs.Math.Seq.{slice};

// The first bytes of a text, or numbers of a memory: so many, or all that there are.
pub fn first<T>(text: &[T], count: usize) -> &[T]
    ensures { result.now ≡ take count text.now }
{
    &text[..count.min(text.len())]
}

// The same to be written.
pub fn first_mut<T>(text: &mut [T], count: usize) -> &mut [T]
    ensures { result.now ≡ take count text.old }
{
    let held = count.min(text.len());
    &mut text[..held]
}

// The bytes of a text from one place up to another, as far as there are any.
pub fn part(text: &[u8], from: usize, to: usize) -> &[u8]
    ensures { result.now ≡ slice from to text.now }
{
    let held = first(text, to);
    &held[from.min(held.len())..]
}

// Stores a number, or a byte, where the place is one of the memory.
pub fn store<T: Copy>(memory: &mut [T], at: usize, value: T)
    ensures { memory.new ≡ set memory.old at value }
{
    if at < memory.len() {
        memory[at] = value;
    }
}
