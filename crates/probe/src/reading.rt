// The script as it comes in: a turn takes one line, or reads once.
use crate::write_out;
use calls::printing::Printed;
use feed::{Line, Lines, Step};
use std::io;
use std::io::{Read, Write};

// The longest line, with its end.
const TEXT: usize = 524289;

// What was read, the part of it that is not used yet, how many lines were, and whether there may be more.
#[derive(Drop)]
pub(crate) struct Script {
    pub(crate) text: [u8; TEXT],
    lines: Lines,
    pub(crate) number: u64,
    pub(crate) more: bool,
}

// Reads once, behind what is not used yet.
fn read_behind<R: Read>(input: &mut R, text: &mut [u8], at: usize) -> io::Result<usize> {
    if at < text.len() {
        input.read(&mut text[at..])
    } else {
        Ok(0)
    }
}

impl Script {
    pub(crate) fn new() -> Script {
        Script {
            text: [0; TEXT],
            lines: feed::no_lines(),
            number: 0,
            more: true,
        }
    }

    // The line of a step, which counts whether it is one or the end of the input.
    fn found(&mut self, step: Step) -> Option<Line> {
        self.lines = step.lines;
        self.number = self.number.wrapping_add(1);
        step.line
    }

    // No line is held whole: more is read, and stands behind the rest.
    fn read_on<R: Read>(&mut self, input: &mut R, lines: Lines) -> io::Result<Option<Line>> {
        let rest = feed::make_room(lines, &mut self.text);
        let got = read_behind(input, &mut self.text, rest.end)?;
        if 0 < got {
            self.lines = feed::more(rest, got, TEXT);
            Ok(None)
        } else {
            self.more = false;
            Ok(self.found(feed::last_line(rest)))
        }
    }

    // One line, or one read. What is printed is written out before a read, and where there is no room for another answer.
    pub(crate) fn take_turn<R: Read, W: Write>(
        &mut self,
        input: &mut R,
        output: &mut W,
        printed: &mut Printed,
    ) -> io::Result<Option<Line>> {
        let step = feed::next_line(self.lines, &self.text);
        if step.line.is_some() {
            if !printed.has_room() {
                write_out(output, printed)?;
            }
            Ok(self.found(step))
        } else {
            write_out(output, printed)?;
            self.read_on(input, step.lines)
        }
    }
}
