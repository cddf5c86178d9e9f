// Interrupt words.
use interrupt::{Answer, Enable, Request};
use measure::checksum::Sum;

// Half of the requests ask for on, a quarter for off, a quarter for leave.
fn enable(i: u64) -> Enable {
    match i % 4 {
        2 => Enable::Off,
        3 => Enable::Leave,
        _ => Enable::On,
    }
}

// Requests that are all right: with off goes write-back-on-ITR, and the index is not 3.
fn request(i: u64) -> Request {
    Request {
        vector: i % 64,
        enable: enable(i),
        write_back: i % 4 == 2,
        clear: i % 2 == 1,
        trigger: i % 8 < 4,
        trigger_index: 0,
        index: i / 4 % 2,
        interval: i % 2048 * 2,
    }
}

fn ask(asked: Request, idle: bool) -> Answer {
    if idle {
        Answer {
            answer: Ok(()),
            offset: asked.vector,
            word: asked.interval,
        }
    } else {
        interrupt::interrupt(asked)
    }
}

pub(crate) fn rounds(idle: bool, rounds: u64) -> u64 {
    let mut sum = Sum::default();
    for i in 0..rounds {
        let a = ask(request(i), idle);
        sum = sum.with(a.answer).with(a.offset).with(a.word);
    }
    sum.0
}
