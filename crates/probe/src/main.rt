// The script bench: reads a script on standard input, makes its calls on queues and a mailbox held in
// memory, and prints one line a call.
#![tactic(auto)]

mod reading;

use calls::Bench;
use calls::printing::Printed;
use feed::Line;
use forms::Bad;
use reading::Script;
use script::{NUMBERS, Numbers, Row};
use std::io;
use std::io::{Read, Write};

// The script, the numbers of its last line, the queues and the mailbox, and what is printed.
#[derive(Drop)]
struct Probe {
    script: Script,
    numbers: Numbers,
    bench: Bench,
    printed: Printed,
}

// Writes out what is printed.
fn write_out<W: Write>(output: &mut W, printed: &mut Printed) -> io::Result<()> {
    output.write_all(printed.held())?;
    printed.clear();
    Ok(())
}

impl Probe {
    fn new() -> Probe {
        Probe {
            script: Script::new(),
            numbers: [0; NUMBERS],
            bench: Bench::new(),
            printed: Printed::new(),
        }
    }

    // What a line is answered, if it is of a form.
    fn answer(&mut self, line: Line) -> Result<Option<Row>, Bad> {
        match forms::hear(line, &self.script.text, &mut self.numbers)? {
            Some(command) => Ok(self.bench.call(command, &self.numbers)),
            None => Ok(None),
        }
    }

    // One line and its answer, or one read.
    fn step<R: Read, W: Write>(&mut self, input: &mut R, output: &mut W) -> io::Result<()> {
        if let Some(line) = self.script.take_turn(input, output, &mut self.printed)? {
            let answer = self.answer(line);
            self.printed
                .print(line, &self.script.text, self.script.number, answer);
        }
        Ok(())
    }

    // Kept: a proved loop has to end, and nothing says that the input does: so many steps no run uses up.
    fn run<R: Read, W: Write>(&mut self, input: &mut R, output: &mut W) -> io::Result<()> {
        for _ in 0..u64::MAX {
            if !self.script.more {
                break;
            }
            self.step(input, output)?;
        }
        write_out(output, &mut self.printed)
    }
}

fn main(rt: HostRuntime) -> io::Result<()> {
    let mut probe = Probe::new();
    probe.run(&mut rt.stdin(), &mut rt.stdout())
}
