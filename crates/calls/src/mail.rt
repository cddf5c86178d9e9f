// The mailbox: its two rings, and the buffer that they have in common.
use command::Command;
use mail_receive_lines::ReceiveSide;
use mail_send_lines::SendSide;
use script::{MAIL_BUFFER, Numbers, Row, poke_from};

#[derive(Clone, Copy)]
pub struct Mail {
    receive: ReceiveSide,
    send: SendSide,
    buffer: [u8; MAIL_BUFFER],
}

impl Mail {
    pub fn new() -> Mail {
        Mail {
            receive: ReceiveSide::new(),
            send: SendSide::new(),
            buffer: [0; MAIL_BUFFER],
        }
    }

    // What a line says to the mailbox: at most one of its rings has an answer.
    pub fn line(&mut self, command: Command, numbers: &Numbers) -> Option<Row> {
        if matches!(command, Command::Mbuf) {
            poke_from(&mut self.buffer, numbers[0] as usize, numbers[1]);
        }
        let Mail {
            receive,
            send,
            buffer,
        } = self;
        let received = receive.line(command, numbers, buffer);
        received.or(send.line(command, numbers, buffer))
    }
}
