// The forms of a line: how many numbers stand behind a command, and which are in range. A part of the program `probe`: what it prints is
// compared.
#![tactic(auto)]

mod mail;

use command::{Command, command_of};
use feed::Line;
use script::{GIVEN, Numbers, OUT, RING, SLOTS};
use words::{is_silent, numbers_behind, word_end};

// A line that is of no form.
#[derive(Clone, Copy, Debug, PartialEq, Eq)]
pub struct Bad;

// The highest kind of IP or L4, and the highest slot count.
const MOST_KIND: u64 = 3;

const MOST_COUNT: u64 = 65535;

// The highest number for what becomes of the enable bit.
const MOST_ENABLE: u64 = 2;

// The highest packet type number.
const MOST_PTYPE: u64 = 255;

// The place behind so many addresses and lengths.
fn pieces_end(addresses: u64, lengths: u64) -> u64 {
    addresses.wrapping_add(lengths).wrapping_add(GIVEN as u64)
}

// How many numbers a command has, where it is one; only a send says it itself.
fn count_of(command: Command, numbers: &Numbers) -> u64 {
    match command {
        Command::Rx => 3,
        Command::RxSet => 9,
        Command::RxPoke => 2,
        Command::RxList => 2,
        Command::Post => 1,
        Command::Out => 2,
        Command::Burst => 2,
        Command::Tx => 3,
        Command::TxSet => 10,
        Command::TxPoke => 2,
        Command::TxToken => 2,
        Command::TxCount => 2,
        Command::Send => pieces_end(numbers[11], numbers[12]),
        Command::Int => 8,
        Command::Ptype => 1,
        _ => mail::count_of(command),
    }
}

// Whether each number is 0 or 1.
pub(crate) fn are_bits(numbers: &[u64]) -> bool {
    numbers.iter().all(|n| *n <= 1)
}

fn is_txset(numbers: &Numbers) -> bool {
    (numbers[7] <= RING as u64) & (numbers[8] <= SLOTS as u64) & (numbers[9] <= SLOTS as u64)
}

fn is_send(numbers: &Numbers) -> bool {
    (numbers[11] <= SLOTS as u64)
        & (numbers[12] <= SLOTS as u64)
        & (numbers[1] <= MOST_KIND)
        & (numbers[2] <= MOST_KIND)
        & are_bits(&[numbers[6], numbers[8]])
}

fn is_int(numbers: &Numbers) -> bool {
    (numbers[1] <= MOST_ENABLE) & are_bits(&numbers[2..5])
}

// Whether the numbers behind a command are in range.
fn in_range(command: Command, numbers: &Numbers) -> bool {
    match command {
        Command::RxSet => (numbers[7] <= RING as u64) & (numbers[8] <= SLOTS as u64),
        Command::RxPoke => numbers[0] < RING as u64,
        Command::RxList => numbers[0] < SLOTS as u64,
        Command::Out => numbers[0] < OUT as u64,
        Command::Burst => numbers[1] <= OUT as u64,
        Command::TxSet => is_txset(numbers),
        Command::TxPoke => numbers[0] < RING as u64,
        Command::TxToken => numbers[0] < SLOTS as u64,
        Command::TxCount => (numbers[0] < SLOTS as u64) & (numbers[1] <= MOST_COUNT),
        Command::Send => is_send(numbers),
        Command::Int => is_int(numbers),
        Command::Ptype => numbers[0] <= MOST_PTYPE,
        _ => mail::in_range(command, numbers),
    }
}

// A line that is neither empty nor a comment.
fn read_words(words: &[u8], numbers: &mut Numbers) -> Result<Command, Bad> {
    let end = word_end(words, 0);
    let command = command_of(parts::first(words, end));
    let count = numbers_behind(words, end, numbers).map_err(|_| Bad)?;
    let command = command.ok_or(Bad)?;
    if count as u64 == count_of(command, numbers) && in_range(command, numbers) {
        Ok(command)
    } else {
        Err(Bad)
    }
}

// The command of a line that is neither empty nor a comment; its numbers are put into `numbers`.
pub fn hear(line: Line, text: &[u8], numbers: &mut Numbers) -> Result<Option<Command>, Bad> {
    if line.long {
        return Err(Bad);
    }
    let words = parts::part(text, line.from, line.to);
    if is_silent(words) {
        Ok(None)
    } else {
        Ok(Some(read_words(words, numbers)?))
    }
}
