// Both queues and the mailbox, the calls that the lines of a script ask for, and their answers. A part of the program `probe`: what it
// prints is compared.
#![tactic(auto)]

mod interrupts;
pub mod mail;
pub mod printing;
mod types;

use command::Command;
use mail::Mail;
use receive_lines::Rx;
use script::{Numbers, Row};
use send_lines::Tx;

#[derive(Clone, Copy)]
pub struct Bench {
    rx: Rx,
    tx: Tx,
    mail: Mail,
}

// An interrupt word or a packet type, where one is asked for.
fn other_line(command: Command, numbers: &Numbers) -> Option<Row> {
    match command {
        Command::Int => Some(interrupts::word(numbers)),
        Command::Ptype => Some(types::entry(numbers)),
        _ => None,
    }
}

impl Bench {
    pub fn new() -> Bench {
        Bench {
            rx: Rx::new(),
            tx: Tx::new(),
            mail: Mail::new(),
        }
    }

    // What a line says to the queues, to the mailbox, or to none: at most one of them has an answer.
    pub fn call(&mut self, command: Command, numbers: &Numbers) -> Option<Row> {
        let received = take_lines::line(&mut self.rx, command, numbers);
        let passed = self.tx.line(command, numbers);
        let mailed = self.mail.line(command, numbers);
        received
            .or(passed)
            .or(mailed)
            .or(other_line(command, numbers))
    }
}
