// Runs an operation of the driver core many times over rings held in memory, so that what it costs can be counted. Each line of
// standard input asks for one run by seven numbers: the operation, 1 for an idle run (the same loop without the core), the
// rounds, the ring's size, the pieces (or slots, or packets), the bytes behind the first piece, and the MSS (0: a plain send). For
// each line comes out one number that depends on every result.
#![tactic(auto)]

ghost use Rattle.std.specs.Prelude.{◌≤◌, length, IfOk};

mod interrupting;
mod looking_up;

use send_rounds::Asked;
use std::io;
use std::io::{Print, Read};

// The longest input.
const TEXT: usize = 4096;

const NUMBERS: usize = 7;

// A number on a line grows by a digit while it is below this.
const LARGE: u64 = 100_000_000_000;

// What a line asks for.
#[derive(Clone, Copy, Debug, PartialEq, Eq)]
enum Operation {
    Receive,
    Send,
    Interrupt,
    // Many packets of one slot a round.
    Poll(burst_rounds::By),
    // A packet type a round.
    LookUp(looking_up::By),
}

impl From<u64> for Operation {
    // Any other number asks for interrupt words.
    fn from(number: u64) -> Operation {
        match number {
            1 => Operation::Receive,
            2 => Operation::Send,
            4 => Operation::Poll(burst_rounds::By::Burst),
            5 => Operation::Poll(burst_rounds::By::Takes),
            6 => Operation::LookUp(looking_up::By::Table),
            7 => Operation::LookUp(looking_up::By::Match),
            _ => Operation::Interrupt,
        }
    }
}

// A line as far as it is read.
// Kept: places not reached are 0, and `at` is the one that is being read: a vector would hold a number more than are read.
#[derive(Clone, Copy, Debug, Default, PartialEq, Eq)]
struct Line {
    values: [u64; NUMBERS],
    at: usize,
}

// Kept: the program prints the same on every input: the library's parse refuses what this reads.
fn with_digit(value: u64, byte: u8) -> u64 {
    if value < LARGE {
        value * 10 + u64::from(byte % 16)
    } else {
        value
    }
}

// The line with one byte more. A digit goes into the number that is being read, a space begins the next.
fn with_byte(line: Line, byte: u8) -> Line {
    let at = line.at;
    let mut values = line.values;
    if at < NUMBERS {
        if byte == b' ' {
            return Line { values, at: at + 1 };
        }
        values[at] = with_digit(values[at], byte);
    }
    Line { values, at }
}

// One run: what a line asks for, number by number.
fn answer(line: Line) -> u64 {
    let [operation, idle, rounds, size, pieces, behind, mss] = line.values;
    let idle = idle == 1;
    match Operation::from(operation) {
        Operation::Receive => receive_rounds::rounds(size, pieces, idle, rounds),
        Operation::Send => send_rounds::rounds(size, pieces, Asked::new(behind, mss, idle, rounds)),
        Operation::Interrupt => interrupting::rounds(idle, rounds),
        Operation::Poll(by) => burst_rounds::rounds(size, pieces, by, idle, rounds),
        Operation::LookUp(by) => looking_up::rounds(by, idle, rounds),
    }
}

fn print(rt: &impl Print, line: Line) -> io::Result<()> {
    let told = answer(line);
    println!(rt; "{told}")?;
    Ok(())
}

fn answer_lines(rt: &impl Print, text: &[u8]) -> io::Result<()> {
    let mut line = Line::default();
    for &byte in text {
        if byte == b'\n' {
            print(rt, line)?;
            line = Line::default();
        } else {
            line = with_byte(line, byte);
        }
    }
    Ok(())
}

// Reads until the text is full or the input ends, and says how many bytes there are.
fn read_full<R: Read>(input: &mut R, text: &mut [u8]) -> io::Result<usize>
    ensures { IfOk result (λ n. n ≤ length text.new) }
{
    let mut done = 0;
    // Kept: a step is as long as a read gives; the library's `read_to_end` needs a heap, and `read_exact` refuses a shorter input.
    while done < text.len() {
        let n = input.read(&mut text[done..])?;
        if n == 0 {
            break;
        }
        done += n;
    }
    Ok(done)
}

fn main(rt: HostRuntime) -> io::Result<()> {
    let mut text = [0u8; TEXT];
    let n = read_full(&mut rt.stdin(), &mut text)?;
    answer_lines(&rt, &text[..n])
}
