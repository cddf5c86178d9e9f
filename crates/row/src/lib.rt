// Rows: a name, numbers, and the end of the line.
#![tactic(auto)]

ghost use Rattle.std.specs.Prelude.{◌≡◌, ◌+◌, ◌-◌, ◌≤◌, length, take};
ghost use Rattle.digits.specs.Put.{Put};
ghost use Rattle.row.specs.Rows.{fields_of, row_of, Whole};

const SPACE: u8 = b' ';

const LINE_END: u8 = b'\n';

// Puts the bytes of a word at a place, and answers the place after them; where they do not fit,
// nothing is put, and the answer is the place itself.
fn put_word(out: &mut [u8], at: usize, word: &[u8]) -> usize
    ensures { Put out.old at word.now result out.new }
{
    if digits::has_room(out.len(), at, word.len()) {
        out[at..at + word.len()].copy_from_slice(word);
        at + word.len()
    } else {
        at
    }
}

// What is left of so much room behind the numbers of a row and the end of its line.
fn room_behind(room: usize, numbers: &[u64]) -> usize
    ensures { result ≡ room - length (fields_of numbers.now) }
{
    let mut left = room;
    for number in numbers {
        left = left.saturating_sub(1 + digits::digit_count(*number));
    }
    left.saturating_sub(1)
}

// The numbers of a row and the end of its line, for which there is room.
fn write_fields(out: &mut [u8], at: usize, numbers: &[u64]) -> usize
    requires { at + length (fields_of numbers.now) ≤ length out.old }
    ensures { Whole out.old at (fields_of numbers.now) result out.new }
{
    let mut place = at;
    for number in numbers {
        out[place] = SPACE;
        place = digits::put_number(out, place + 1, *number);
    }
    out[place] = LINE_END;
    place + 1
}

// A row of all these numbers.
fn put_all(out: &mut [u8], at: usize, name: &[u8], numbers: &[u64]) -> usize
    ensures { Put out.old at (row_of name.now numbers.now) result out.new }
{
    let room = (out.len() + 1)
        .saturating_sub(at)
        .saturating_sub(name.len());
    if 0 < room_behind(room, numbers) {
        let place = put_word(out, at, name);
        write_fields(out, place, numbers)
    } else {
        at
    }
}

// Puts a row at a place: a name, then the first so many numbers (or all that there are), each
// behind a space, then the end of the line. It answers as `put_word` does.
pub fn put_row(out: &mut [u8], at: usize, name: &[u8], numbers: &[u64], count: usize) -> usize
    ensures { Put out.old at (row_of name.now (take count numbers.now)) result out.new }
{
    put_all(out, at, name, &numbers[..count.min(numbers.len())])
}
