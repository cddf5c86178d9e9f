// Interrupt words.
use interrupt::{Enable, Request};
use rules::number_of;
use script::{Numbers, Row, row_of};

// Any number of `enable` above 2 is Leave: the form of a line has refused it before.
pub(crate) fn word(numbers: &Numbers) -> Row {
    let answer = interrupt::interrupt(Request {
        vector: numbers[0],
        enable: Enable::try_from(numbers[1]).unwrap_or(Enable::Leave),
        write_back: numbers[2] == 1,
        clear: numbers[3] == 1,
        trigger: numbers[4] == 1,
        trigger_index: numbers[5],
        index: numbers[6],
        interval: numbers[7],
    });
    let number = u64::from(number_of(answer.answer));
    row_of(&[number, answer.offset, answer.word])
}
