// An answer is a row that begins with its line's own command. What is printed is held back in memory.
use feed::Line;
use forms::Bad;
use row::put_row;
use script::{Row, row_of};
use words::word_end;

// What is printed is held back up to here.
pub const PRINTED: usize = 65536;

// The longest answer fits this room.
const ROOM: usize = 1024;

// What is printed and not written out, up to a place.
// Kept: put_row writes at a place of a slice, so that a vector's length would be set by hand as `next` is. So probe's Script: feed's lines are places.
#[derive(Drop)]
pub struct Printed {
    bytes: [u8; PRINTED],
    next: usize,
}

fn first_word(line: Line, text: &[u8]) -> &[u8] {
    let words = parts::part(text, line.from, line.to);
    parts::first(words, word_end(words, 0))
}

impl Printed {
    pub fn new() -> Printed {
        Printed {
            bytes: [0; PRINTED],
            next: 0,
        }
    }

    // Whether there is room for another answer.
    pub fn has_room(&self) -> bool {
        digits::has_room(PRINTED, self.next, ROOM)
    }

    pub fn held(&self) -> &[u8] {
        parts::first(&self.bytes, self.next)
    }

    // Nothing is held any more.
    pub fn clear(&mut self) {
        self.next = 0;
    }

    // A row behind its name.
    fn put(&mut self, name: &[u8], row: &Row) {
        let numbers = row.numbers();
        self.next = put_row(&mut self.bytes, self.next, name, numbers, numbers.len());
    }

    // The answer to a line, where it has one; one that is of no form is answered by its number in the script.
    pub fn print(
        &mut self,
        line: Line,
        text: &[u8],
        number: u64,
        answer: Result<Option<Row>, Bad>,
    ) {
        match answer {
            Ok(Some(row)) => self.put(first_word(line, text), &row),
            Ok(None) => {}
            Err(Bad) => self.put(b"bad", &row_of(&[number])),
        }
    }
}
