// Input that comes in pieces: the lines of a text of which a lent memory holds a part.
#![tactic(auto)]

ghost use Rattle.std.specs.Prelude.{◌≡◌, false};
ghost use Rattle.feed.specs.Feeding.{no_lines, next_of, last_of, more_of, RoomMade, MovedDown};

// The part of the memory that is not read yet, and whether it goes on a line of which the beginning
// was given up.
// Kept: long is a flag, here and in Line: a line without its beginning has a place and an end all the same (`next_of`, `last_of`).
#[derive(Clone, Copy, Debug, PartialEq, Eq)]
pub struct Lines {
    pub start: usize,
    pub end: usize,
    pub long: bool,
}

// A line: its bytes stand from one place up to another. A line that is too long for the memory has
// lost its beginning.
#[derive(Clone, Copy, Debug, PartialEq, Eq)]
pub struct Line {
    pub long: bool,
    pub from: usize,
    pub to: usize,
}

// A line, where one was found, and what is not read yet.
#[derive(Clone, Copy, Debug, PartialEq, Eq)]
pub struct Step {
    pub line: Option<Line>,
    pub lines: Lines,
}

// Nothing is read, and nothing is there to read.
pub fn no_lines() -> Lines
    ensures { result ≡ no_lines false }
{
    Lines {
        start: 0,
        end: 0,
        long: false,
    }
}

// The next line that the memory holds with its end.
pub fn next_line(lines: Lines, text: &[u8]) -> Step
    ensures { result ≡ next_of lines text.now }
{
    let held = parts::first(text, lines.end);
    let at = words::line_end(held, lines.start);
    if at < held.len() {
        Step {
            line: Some(Line {
                long: lines.long,
                from: lines.start,
                to: at,
            }),
            lines: Lines {
                start: at + 1,
                end: lines.end,
                long: false,
            },
        }
    } else {
        Step { line: None, lines }
    }
}

// The line that the end of the input ends.
pub fn last_line(lines: Lines) -> Step
    ensures { result ≡ last_of lines }
{
    if (lines.start < lines.end) | lines.long {
        Step {
            line: Some(Line {
                long: lines.long,
                from: lines.start,
                to: lines.end,
            }),
            lines: no_lines(),
        }
    } else {
        Step {
            line: None,
            lines: no_lines(),
        }
    }
}

// Moves the bytes from one place up to another to the front, and answers how many they are.
fn move_down(text: &mut [u8], from: usize, to: usize) -> usize
    ensures { MovedDown text.old from to result text.new }
{
    let end = to.min(text.len());
    let start = from.min(end);
    text.copy_within(start..end, 0);
    end - start
}

// Room behind the bytes that are not read: they are moved to the front. Where they fill the memory,
// they begin a line that is too long, and are given up.
pub fn make_room(lines: Lines, text: &mut [u8]) -> Lines
    ensures { RoomMade lines text.old result text.new }
{
    let count = move_down(text, lines.start, lines.end);
    if count < text.len() {
        Lines {
            start: 0,
            end: count,
            long: lines.long,
        }
    } else {
        Lines {
            start: 0,
            end: 0,
            long: true,
        }
    }
}

// So many more bytes stand behind those that are not read, in a memory so long.
pub fn more(lines: Lines, got: usize, long: usize) -> Lines
    ensures { result ≡ more_of lines got long }
{
    if digits::has_room(long, lines.end, got) {
        Lines {
            end: lines.end + got,
            ..lines
        }
    } else {
        lines
    }
}
