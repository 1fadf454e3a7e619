// Prints document 01's printout of each capture that an argument names, or of the one on standard input. Argument 1 says how, in letters: n to start
// with no base; the other arguments are names.
#![tactic(auto)]

ghost use Rattle.std.specs.Prelude.{◌≤◌, length, IfOk};
ghost use Rattle.lines.specs.Lines.{name_bytes};

use lines::{NAME_BYTES, OpenLine};
use outside::output::{Outputs, Told, write_all};
use outside::{arguments, descriptors, files, input};
use reports::judge::Judge;
use reports::{MOST_BYTES, Status, base_choice};
use rules::{Answer, BaseChoice};
use std::io;
use std::io::{IsTerminal, Read, Write};
use std::rt::{Env, Files};

// How many bytes of lines are gathered before they are written: a capture of 4,096 commands takes two pages.
const PAGE_BYTES: usize = 32768;

// The line of an answer is shorter.
const ANSWER_BYTES: usize = 128;

// An argument that fills the room for a name is longer than any path.
const ARGUMENT_BYTES: usize = 4096;

// Why an input is not judged: a read failed, or it grew meanwhile.
#[derive(Drop)]
enum Unread {
    Failed(io::Error),
    Changed,
}

// Where the printout goes, and the page that its lines are gathered in.
#[derive(Drop)]
struct Printer<O, E> {
    to: Outputs<O, E>,
    page: [u8; PAGE_BYTES],
}

// A run over captures. Its buffers are made once, whatever the number of files: clearing them for each would take longer than the check.
#[derive(Drop)]
struct Run<O, E> {
    printer: Printer<O, E>,
    judge: Judge,
    file: [u8; MOST_BYTES],
    // whether a line with its name stands above the printout of each file
    names: bool,
}

// The base that captures are to be judged by.
fn asked(env: &impl Env) -> BaseChoice {
    base_choice(arguments::whole(env, 1, &mut [0u8; ARGUMENT_BYTES]))
}

impl<O: Write, E: Write> Printer<O, E> {
    // The line above the printout of a file among several.
    fn print_name(&mut self, name: &[u8]) -> Result<(), Told>
        requires { length name.now ≤ name_bytes }
    {
        let mut line = OpenLine::new(&mut self.page);
        line.put_text(b"file ");
        line.put_text(name);
        line.put_text(b"\n");
        let end = line.len();
        self.to.print(&self.page[..end])
    }

    fn print_answer(&mut self, answer: Answer) -> Result<(), Told> {
        let mut line = [0u8; ANSWER_BYTES];
        let n = printout::answer_line(&mut line, answer);
        self.to.print(&line[..n])
    }

    // Prints the line of each record.
    fn print_records(&mut self, records: &[u32]) -> Result<(), Told> {
        let mut rest = records;
        // No `for` has these turns: each page says itself how many records it takes.
        while rest.len() > 1 {
            let gathered = printout::record_lines(&mut self.page, rest);
            self.to.print(&self.page[..gathered.bytes])?;
            rest = &rest[2 * gathered.lines..];
        }
        Ok(())
    }

    // Says that an input changed.
    fn complain_of_change(&mut self, name: &[u8]) {
        let messages = &mut self.to.messages;
        let _ = write_all(messages, b"lungevati: ");
        let _ = write_all(messages, name);
        let _ = write_all(messages, b": it changed while it was read\n");
    }
}

// The words of the records that an answer tells of.
fn told(records: &[u32], answer: Answer) -> &[u32] {
    let words = 2 * answer.count as usize;
    records.get(..words).unwrap_or(records)
}

// Reads an input to its end. A longer one than any capture is not read further.
fn read_input<'a, I: Read + IsTerminal>(
    from: &mut I,
    bytes: &'a mut [u8],
) -> Result<&'a [u8], Unread>
    ensures { IfOk result (λ read. length read.now ≤ length bytes.old) }
{
    let filled = input::fill(from, bytes);
    if let Some(why) = filled.failure {
        return Err(Unread::Failed(why));
    }
    if filled.count < bytes.len() && matches!(input::goes_on(from), Ok(true)) {
        return Err(Unread::Changed);
    }
    Ok(&bytes[..filled.count])
}

impl<O: Write, E: Write> Run<O, E> {
    // Prints the answer for an open input and its records, and answers its status. It is shown by its name.
    fn answer_input<I: Read + IsTerminal>(
        &mut self,
        from: &mut I,
        name: &[u8],
    ) -> Result<Status, Told>
        requires { length name.now ≤ name_bytes }
    {
        match read_input(from, &mut self.file) {
            Ok(file) => {
                if self.names {
                    self.printer.print_name(name)?;
                }
                let answer = self.judge.judge(file);
                self.printer.print_answer(answer)?;
                self.printer
                    .print_records(told(&self.judge.records, answer))?;
                Ok(if answer.reason == 0 {
                    Status::Accepted
                } else {
                    Status::Refused
                })
            }
            Err(Unread::Failed(why)) => {
                let _ = self.printer.to.complain(name, why);
                Ok(Status::Unread)
            }
            Err(Unread::Changed) => {
                self.printer.complain_of_change(name);
                Ok(Status::Unread)
            }
        }
    }

    // The same for the file that an argument names. One that is longer than any path fills the buffer, and no path is as long as that.
    fn answer_argument<R: Env + Files>(
        &mut self,
        system: &R,
        i: usize,
        text: &mut [u8; NAME_BYTES],
    ) -> Result<Status, Told>
    where
        R::File: IsTerminal,
    {
        let mut word = [0u8; ARGUMENT_BYTES];
        let name = arguments::front(system, i, &mut word);
        let opened = files::open(system, name, i);
        let n = names::shown(name, text);
        let shown = &text[..n];
        match opened {
            Ok(mut file) => self.answer_input(&mut file, shown),
            Err(why) => {
                let _ = self.printer.to.complain(shown, why);
                Ok(Status::Unread)
            }
        }
    }

    // The same for each of so many arguments, the worst status of all.
    fn answer_arguments<R: Env + Files>(&mut self, system: &R, count: usize) -> Result<Status, Told>
    where
        R::File: IsTerminal,
    {
        let mut text = [0u8; NAME_BYTES];
        let mut worst = Status::Accepted;
        for i in 2..count {
            worst = worst.worse(self.answer_argument(system, i, &mut text)?);
        }
        Ok(worst)
    }
}

// Nothing is read after an output that could not be written.
fn main(rt: HostRuntime) {
    let count = arguments::count(&rt);
    let mut run = Run {
        printer: Printer {
            to: Outputs::new(rt.stdout(), rt.stderr()),
            page: [0; PAGE_BYTES],
        },
        judge: Judge::new(asked(&rt)),
        file: [0; MOST_BYTES],
        names: count > 3,
    };
    let answered = if count < 3 {
        run.answer_input(&mut rt.stdin(), b"standard input")
    } else {
        run.answer_arguments(&rt, count)
    };
    let status = answered.unwrap_or(Status::Unread);
    let _ = descriptors::report(&rt, &status.line());
}
