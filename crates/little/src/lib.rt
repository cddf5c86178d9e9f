// Bytes in memory: copied, and as numbers, the lowest byte first. A write and a read over the width, and those of a number of its own width.
#![tactic(auto)]

ghost use Rattle.std.specs.Prelude.{ℕ, ◌≡◌, ◌+◌, ◌^◌, ◌<◌, ◌≤◌, length};
ghost use Rattle.std.proofs.Common.{rules};
ghost use Rattle.slots.specs.Memory.{store_from, read_from};
ghost use Rattle.little.specs.Little.{value_of, bytes_of};
ghost use Rattle.little.specs.Steps.{Says};

// A byte's values.
const BYTE: u64 = 256;

// All of bytes, from place at on.
// Kept: byte by byte and no `copy_from_slice`, since the edit copied_first has the first byte for each.
pub fn copy(out: &mut [u8], at: usize, bytes: &[u8])
    requires { at + length bytes.now ≤ length out.old }
    ensures { out.new ≡ store_from out.old at bytes.now }
{
    for i in 0..bytes.len() {
        out[at + i] = bytes[i];
    }
}

// The lowest n bytes of x, from place at on.
pub fn put(out: &mut [u8], at: usize, n: usize, x: u64)
    requires { at + n ≤ length out.old }
    ensures { out.new ≡ store_from out.old at (bytes_of n x) }
{
    let mut rest = x;
    // Kept: put takes any n, and to_le_bytes has eight bytes.
    for i in 0..n {
        out[at + i] = (rest % BYTE) as u8;
        rest /= BYTE;
    }
}

// The number that the n bytes from place at on say.
pub fn get(s: &[u8], at: usize, n: usize) -> u64
    requires { (at + n ≤ length s.now) × (n ≤ 8) }
    ensures { Says s.now at n result }
{
    let mut bytes = [0; 8];
    bytes[..n].copy_from_slice(&s[at..at + n]);
    u64::from_le_bytes(bytes)
}

// A number of WIDTH bytes.
pub trait Number: Copy {
    ghost WIDTH: { ℕ };

    ghost value: { Self → ℕ };

    const WIDTH: usize;

    fn wide(self) -> u64
        ensures { result ≡ value self };

    fn narrow(x: u64) -> Self
        requires { x < 256 ^ WIDTH }
        ensures { value result ≡ x };

    ghost few: { WIDTH ≤ 8 };
}

// Kept: two impls that differ in type and width; an impl that a macro writes is refused.
impl Number for u16 {
    ghost WIDTH = { 2 };

    ghost value = { λ x. x };

    ghost few = { Prim.search rules };

    const WIDTH: usize = 2;

    fn wide(self) -> u64 {
        self as u64
    }

    fn narrow(x: u64) -> u16 {
        x as u16
    }
}

impl Number for u32 {
    ghost WIDTH = { 4 };

    ghost value = { λ x. x };

    ghost few = { Prim.search rules };

    const WIDTH: usize = 4;

    fn wide(self) -> u64 {
        self as u64
    }

    fn narrow(x: u64) -> u32 {
        x as u32
    }
}

pub fn put_number<T: Number>(out: &mut [u8], at: usize, x: T)
    requires { at + T.WIDTH ≤ length out.old }
    ensures { out.new ≡ store_from out.old at (bytes_of T.WIDTH (T.value x)) }
{
    put(out, at, T::WIDTH, x.wide());
}

pub fn get_number<T: Number>(s: &[u8], at: usize) -> T
    requires { at + T.WIDTH ≤ length s.now }
    ensures { T.value result ≡ value_of (read_from s.now at T.WIDTH) }
{
    T::narrow(get(s, at, T::WIDTH))
}
