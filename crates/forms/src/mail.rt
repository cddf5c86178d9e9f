// The forms of the mailbox's lines.
use crate::are_bits;
use command::Command;
use script::{ELEMENTS, MAIL_BUFFER, MAIL_RING, Numbers};

// The highest byte, and the highest 32-bit number.
const MOST_BYTE: u64 = 0xff;

const MOST_WORD: u64 = 0xffff_ffff;

// How many numbers a command of the mailbox has; any other has none.
pub(crate) fn count_of(command: Command) -> u64 {
    match command {
        Command::Mtx | Command::Mrx | Command::Mdone | Command::Mread => 1,
        Command::MtxSet => 6,
        Command::MrxSet | Command::Mshut | Command::Mpost => 5,
        Command::MtxPoke | Command::MrxPoke | Command::Mbuf => 2,
        Command::MtxList | Command::MrxList => 2,
        Command::Msend => 8,
        _ => 0,
    }
}

// A record that is handed in: how much of the ring and of the list is lent.
fn is_lent(ring: u64, list: u64) -> bool {
    (ring <= MAIL_RING as u64) & (list <= ELEMENTS as u64)
}

fn is_send(numbers: &Numbers) -> bool {
    (numbers[0] <= 1) & (numbers[3] <= MAIL_BUFFER as u64) & are_bits(&numbers[4..7])
}

fn is_shutdown(numbers: &Numbers) -> bool {
    are_bits(&numbers[..4])
}

fn is_post(numbers: &Numbers) -> bool {
    (numbers[2] <= MAIL_BUFFER as u64) & are_bits(&numbers[3..5])
}

// Whether the numbers behind a command of the mailbox are in range; those of any other are.
pub(crate) fn in_range(command: Command, numbers: &Numbers) -> bool {
    match command {
        Command::MtxSet => (numbers[3] <= 1) & is_lent(numbers[4], numbers[5]),
        Command::MrxSet => is_lent(numbers[3], numbers[4]),
        Command::MtxPoke | Command::MrxPoke => {
            (numbers[0] < MAIL_RING as u64) & (numbers[1] <= MOST_BYTE)
        }
        Command::Mbuf => (numbers[0] < MAIL_BUFFER as u64) & (numbers[1] <= MOST_BYTE),
        Command::MtxList | Command::MrxList => {
            (numbers[0] < ELEMENTS as u64) & (numbers[1] <= MOST_WORD)
        }
        Command::Msend => is_send(numbers),
        Command::Mshut => is_shutdown(numbers),
        Command::Mpost => is_post(numbers),
        Command::Mdone | Command::Mread => numbers[0] <= MAIL_BUFFER as u64,
        _ => true,
    }
}
