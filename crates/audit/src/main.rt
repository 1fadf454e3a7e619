// A line for each capture that is named, in plain words or as JSON, and last the totals. Argument 1 says how, in letters: j for JSON, q without
// the captures that are accepted, s for names that come on descriptor 5, n to start with no base; the other arguments are names.
#![tactic(auto)]

ghost use Rattle.std.specs.Prelude.{◌≡◌, ◌≤◌, length, IfOk};
ghost use Rattle.lines.specs.Lines.{name_bytes};
ghost use Rattle.members.specs.Strings.{quoted};

use causes::cause;
use clauses::{Detail, Unread};
use json_lines::Totals;
use lines::{LINE_BYTES, NAME_BYTES, OpenLine};
use members::Outcome;
use outside::output::{Outputs, Told, tell_failure};
use outside::{arguments, descriptors, files, input};
use reports::judge::Judge;
use reports::{MOST_BYTES, Status, base_choice, has_letter};
use rules::{Answer, BaseChoice, Filled};
use sentences::WORDS_BYTES;
use std::io;
use std::io::{ErrorKind, IsTerminal, Read, Seek, SeekFrom, Write};
use std::rt::{Env, Files};

// The room for the word of letters: a longer one has none.
const WORD_BYTES: usize = 4096;

// As many bytes of a name are shown: one that has more is longer than any path.
const SHOWN_BYTES: usize = 4096;

// Of a name in the file of names: its letter, as many bytes as the longest path has and one more, and its NUL.
const ENTRY_BYTES: usize = 4098;

// More bytes than a file of names will have.
const MOST_NAMES: u64 = 0x100_0000_0000;

// Reasons by their numbers, 1 to 22.
const REASONS: usize = 23;

// The system's numbers for why it does not give a file.
const NO_ENTRY: i32 = 2;

const NO_ACCESS: i32 = 13;

const NO_FOLDER: i32 = 20;

const IS_FOLDER: i32 = 21;

const NAME_TOO_LONG: i32 = 36;

// How the lines are to be, whether names come on a descriptor, and the base that captures are judged by.
#[derive(Clone, Copy)]
struct Wish {
    json: bool,
    quiet: bool,
    stream: bool,
    choice: BaseChoice,
}

// The answer for a capture, the dword at its place, what happened there, and the file's size.
#[derive(Clone, Copy)]
struct Finding {
    answer: Answer,
    dword: u32,
    detail: Detail,
    size: Detail,
}

// What was found of a name.
#[derive(Clone, Copy)]
enum Look {
    Read(Finding),
    NotRead(Unread),
    Unlisted,
}

// What captures are read into and judged by. It is made once: to make its buffers anew for each name would cost more than the check.
#[derive(Drop)]
struct Captures {
    file: [u8; MOST_BYTES],
    judge: Judge,
}

// What was found so far, by its outcome and by its reason, and where it is told: a name is put into the text, and a line into the line.
#[derive(Drop)]
struct Report<O, E> {
    wish: Wish,
    totals: Totals,
    reasons: [u64; REASONS],
    text: [u8; NAME_BYTES],
    line: [u8; LINE_BYTES],
    to: Outputs<O, E>,
}

// ---- what is asked for

fn wish_of(word: &[u8]) -> Wish {
    Wish {
        json: has_letter(word, b'j'),
        quiet: has_letter(word, b'q'),
        stream: has_letter(word, b's'),
        choice: base_choice(word),
    }
}

fn asked(env: &impl Env) -> Wish {
    wish_of(arguments::whole(env, 1, &mut [0u8; WORD_BYTES]))
}

// ---- what a file is

// Where there is no dword, 0 stands for it, and no line shows it.
fn dword_at(words: &[u32], index: u32) -> u32 {
    words.get(index as usize).copied().unwrap_or(0)
}

// What a refused command did, by the words that the capture fills.
#[tactic(auto, unfolding(rules::specs::Records::words_for))]
fn caused(judge: &Judge, filled: Filled, answer: Answer) -> Detail {
    if judge.records.len() / 2 < answer.count as usize {
        return Detail::NoMore;
    }
    match judge.batch.get(..filled.count) {
        Some(batch) => cause(batch, filled.at, &judge.records, answer),
        None => Detail::NoMore,
    }
}

// What a refused command did. The file is read a second time, for the batch's address and length.
fn command_detail(judge: &mut Judge, file: &[u8], answer: Answer) -> Detail {
    match capture::read(file, &mut judge.batch, &mut judge.state) {
        Err(_) => Detail::NoMore,
        Ok(contents) => caused(judge, contents.batch, answer),
    }
}

// 8 to 17 tell of a command, and 19 of the file's size.
fn judged(judge: &mut Judge, file: &[u8], size: Detail) -> Finding {
    let answer = judge.judge(file);
    let dword = if answer.window == 0 {
        dword_at(&judge.batch, answer.index)
    } else {
        dword_at(&judge.state, answer.index)
    };
    let detail = match answer.reason {
        8..=17 => command_detail(judge, file, answer),
        19 => size,
        _ => Detail::NoMore,
    };
    Finding {
        answer,
        dword,
        detail,
        size,
    }
}

// Why the system did not give a file. A file is not there either where a part of its path is no folder. A failure that is not the system's has no number.
// By std's kinds the lines would not be what they are: 1 is of the same kind as 13, and is told by its number.
fn why(failure: io::Error) -> Unread {
    match failure.raw_os_error().unwrap_or(0) {
        NO_ENTRY | NO_FOLDER => Unread::NoSuchFile,
        NO_ACCESS => Unread::NotAllowed,
        IS_FOLDER => Unread::Folder,
        NAME_TOO_LONG => Unread::NameTooLong,
        error => Unread::Other(usize::try_from(error).unwrap_or(0)),
    }
}

// Where the system says that a file ends; of some devices it says a number that is none.
fn end_by_system<I: Seek>(file: &mut I) -> io::Result<u64> {
    let end = file.seek(SeekFrom::End(0))?;
    if i64::try_from(end).is_err() {
        return Err(io::Error::from(ErrorKind::InvalidData));
    }
    Ok(end)
}

// The size of a file of which so many bytes were read. Where more were read than any capture has, the system may say less, as of a pipe: that is not told.
fn size_of<I: Seek>(file: &mut I, read: usize) -> Detail {
    if read < MOST_BYTES {
        return Detail::HasBytes(read as u64);
    }
    match end_by_system(file) {
        Ok(end) if end >= MOST_BYTES as u64 => Detail::HasBytes(end),
        _ => Detail::HasTooMany,
    }
}

impl Captures {
    // What an open file is. A longer file than any capture is not read further; of another only a read behind the last byte shows that it has ended: one
    // that gives a byte shows that it has grown meanwhile.
    fn look_open<I: Read + Seek + IsTerminal>(&mut self, from: &mut I) -> Result<Finding, Unread> {
        let filled = input::fill(from, &mut self.file);
        if let Some(failure) = filled.failure {
            return Err(why(failure));
        }
        let n = filled.count;
        if n < MOST_BYTES && input::goes_on(from).map_err(why)? {
            return Err(Unread::Changed);
        }
        let size = size_of(from, n);
        Ok(judged(&mut self.judge, &self.file[..n], size))
    }

    // Each name has a number: its argument's, or its own among those in the file of names.
    fn look_at<R: Files>(
        &mut self,
        system: &R,
        name: &[u8],
        number: usize,
    ) -> Result<Finding, Unread>
    where
        R::File: IsTerminal,
    {
        let mut from = files::open(system, name, number).map_err(why)?;
        self.look_open(&mut from)
    }
}

impl From<Result<Finding, Unread>> for Look {
    fn from(looked: Result<Finding, Unread>) -> Look {
        match looked {
            Ok(found) => Look::Read(found),
            Err(why) => Look::NotRead(why),
        }
    }
}

// ---- what is said of a file

impl Look {
    fn outcome(self) -> Outcome {
        match self {
            Look::Read(found) if found.answer.reason == 0 => Outcome::Accepted,
            Look::Read(_) => Outcome::Refused,
            Look::NotRead(why) if clauses::is_missing(why) => Outcome::Missing,
            Look::NotRead(_) => Outcome::Unread,
            Look::Unlisted => Outcome::Unlisted,
        }
    }

    fn reason(self) -> usize {
        match self {
            Look::Read(found) => found.answer.reason as usize,
            Look::NotRead(_) | Look::Unlisted => 0,
        }
    }
}

fn found_line(line: &mut [u8; LINE_BYTES], name: &[u8], found: Finding) -> usize
    requires { length name.now ≤ name_bytes }
    ensures { result ≤ length line.new }
{
    let answer = found.answer;
    if answer.reason == 0 {
        return sentences::accepted_line(line, name, answer.count);
    }
    sentences::refused_line(line, name, answer, found.dword, found.detail)
}

fn plain_line(line: &mut [u8; LINE_BYTES], name: &[u8], look: Look) -> usize
    requires { length name.now ≤ name_bytes }
    ensures { result ≤ length line.new }
{
    match look {
        Look::Read(found) => found_line(line, name, found),
        Look::NotRead(why) => sentences::unread_line(line, name, why),
        Look::Unlisted => sentences::unlisted_line(line, name),
    }
}

fn plain_words(words: &mut [u8; WORDS_BYTES], text: &[u8]) -> usize
    requires { length text.now ≤ 512 }
    ensures { (result ≤ length words.new) × (length words.new ≡ length words.old) }
{
    let mut out = OpenLine::new(words);
    out.put_text(text);
    out.len()
}

// The same words as in the line in plain words.
fn found_words(words: &mut [u8; WORDS_BYTES], found: Finding) -> usize
    ensures { (result ≤ length words.new) × (length words.new ≡ length words.old) }
{
    let reason = found.answer.reason;
    if reason == 0 {
        return plain_words(words, b"accepted");
    }
    sentences::refused_words(words, reason, found.detail)
}

fn words_of(words: &mut [u8; WORDS_BYTES], look: Look) -> usize
    ensures { (result ≤ length words.new) × (length words.new ≡ length words.old) }
{
    match look {
        Look::Read(found) => found_words(words, found),
        Look::NotRead(why) => sentences::unread_words(words, why),
        Look::Unlisted => plain_words(words, b"not listed"),
    }
}

fn size_told(size: Detail) -> Option<u64> {
    match size {
        Detail::HasBytes(n) => Some(n),
        _ => None,
    }
}

// The dword at the place of a fault. 1 to 4 and 19 to 21 have no place, and 6 is where the batch ends.
fn dword_told(reason: u32, dword: u32) -> Option<u64> {
    match reason {
        0..=4 | 6 | 19..=22 => None,
        _ => Some(dword as u64),
    }
}

fn told(look: Look) -> json_lines::Told {
    match look {
        Look::Read(found) => {
            let answer = found.answer;
            let dword = dword_told(answer.reason, found.dword);
            json_lines::judged(size_told(found.size), answer, dword)
        }
        Look::NotRead(_) | Look::Unlisted => json_lines::not_judged(None, look.outcome()),
    }
}

fn json_line(line: &mut [u8; LINE_BYTES], name: &[u8], look: Look) -> usize
    requires { length (quoted name.now) ≤ 20480 }
    ensures { result ≤ length line.new }
{
    let mut words = [0u8; WORDS_BYTES];
    let n = words_of(&mut words, look);
    json_lines::file_line(line, name, &words[..n], told(look))
}

fn one_line(wish: Wish, line: &mut [u8; LINE_BYTES], name: &[u8], look: Look) -> usize
    requires { (length name.now ≤ name_bytes) × (length (quoted name.now) ≤ 20480) }
    ensures { result ≤ length line.new }
{
    if wish.json {
        json_line(line, name, look)
    } else {
        plain_line(line, name, look)
    }
}

// As much of a name as is shown: of one that is longer than any path the first bytes.
fn shortened(name: &[u8]) -> &[u8]
    ensures { length result.now ≤ 4096 }
{
    name.get(..SHOWN_BYTES).unwrap_or(name)
}

// The name is put into a text, and the line for it into a line.
fn line_of(
    wish: Wish,
    text: &mut [u8; NAME_BYTES],
    line: &mut [u8; LINE_BYTES],
    name: &[u8],
    look: Look,
) -> usize
    ensures { result ≤ length line.new }
{
    let n = names::shown(shortened(name), text);
    one_line(wish, line, &text[..n], look)
}

// ---- the report

// A total with one more. No run has so many names that it wraps.
fn counted(total: u64) -> u64 {
    total.wrapping_add(1)
}

fn status_of(totals: Totals) -> Status {
    if (totals.unread != 0) | (totals.missing != 0) {
        Status::Unread
    } else if totals.refused != 0 {
        Status::Refused
    } else {
        Status::Accepted
    }
}

impl<O: Write, E: Write> Report<O, E> {
    fn new(wish: Wish, to: Outputs<O, E>) -> Report<O, E> {
        Report {
            wish,
            totals: Totals {
                accepted: 0,
                refused: 0,
                unread: 0,
                missing: 0,
                unlisted: 0,
            },
            reasons: [0; REASONS],
            text: [0; NAME_BYTES],
            line: [0; LINE_BYTES],
            to,
        }
    }

    fn count(&mut self, look: Look) {
        let totals = &mut self.totals;
        match look.outcome() {
            Outcome::Accepted => totals.accepted = counted(totals.accepted),
            Outcome::Refused => totals.refused = counted(totals.refused),
            Outcome::Unread => totals.unread = counted(totals.unread),
            Outcome::Missing => totals.missing = counted(totals.missing),
            Outcome::Unlisted => totals.unlisted = counted(totals.unlisted),
        }
        if let Some(total) = self.reasons.get_mut(look.reason()) {
            *total = counted(*total);
        }
    }

    // A line is written whole, so that the lines of audits that run side by side do not mix (in a pipe, lines of up to 4,096 bytes).
    fn write_line(&mut self, end: usize) -> Result<(), Told>
        requires { end ≤ length self.old.line }
    {
        self.to.print(&self.line[..end])
    }

    // One name more: it is counted, and its line is written.
    fn add(&mut self, name: &[u8], look: Look) -> Result<(), Told> {
        self.count(look);
        if self.wish.quiet && matches!(look.outcome(), Outcome::Accepted) {
            return Ok(());
        }
        let end = line_of(self.wish, &mut self.text, &mut self.line, name, look);
        self.write_line(end)
    }

    // A line for each reason that captures were refused by.
    fn write_reasons(&mut self) -> Result<(), Told> {
        for reason in 1..REASONS {
            let n = self.reasons[reason];
            if n != 0 {
                let end = sentences::reason_line(&mut self.line, reason as u32, n);
                self.write_line(end)?;
            }
        }
        Ok(())
    }

    fn write_plain_totals(&mut self) -> Result<(), Told> {
        self.write_reasons()?;
        let t = self.totals;
        if t.unlisted != 0 {
            let end = sentences::unlisted_total(&mut self.line, t.unlisted);
            self.write_line(end)?;
        }
        let choice = self.wish.choice;
        let end = sentences::totals_line(
            &mut self.line,
            t.accepted,
            t.refused,
            t.unread,
            t.missing,
            choice,
        );
        self.write_line(end)
    }

    fn write_totals(&mut self) -> Result<(), Told> {
        if self.wish.json {
            let end = json_lines::totals_line(
                &mut self.line,
                self.totals,
                &self.reasons,
                self.wish.choice,
            );
            self.write_line(end)
        } else {
            self.write_plain_totals()
        }
    }

    // Says that no more names can be read.
    fn names_lost(&mut self, failure: io::Error) -> Told {
        let what = b"lungevati: the names could not be read";
        let _ = tell_failure(&mut self.to.messages, what, failure);
        Told
    }
}

// ---- the names

// The captures that arguments name. One that is longer than any path fills the entry.
fn audit_arguments<R: Env + Files, O: Write, E: Write>(
    system: &R,
    captures: &mut Captures,
    report: &mut Report<O, E>,
) -> Result<(), Told>
where
    R::File: IsTerminal,
{
    let mut entry = [0u8; ENTRY_BYTES];
    for i in 2..arguments::count(system) {
        let name = arguments::front(system, i, &mut entry);
        report.add(name, captures.look_at(system, name, i).into())?;
    }
    Ok(())
}

// What a letter before a name asks for: c that it is checked; n that it is no regular file, and u that it is not listed.
fn look_by_letter<R: Files>(
    system: &R,
    captures: &mut Captures,
    letter: u8,
    name: &[u8],
    number: usize,
) -> Look
where
    R::File: IsTerminal,
{
    match letter {
        b'u' => Look::Unlisted,
        b'n' => Look::NotRead(Unread::NoRegularFile),
        _ => captures.look_at(system, name, number).into(),
    }
}

// The entry at a place of the file of names, up to its NUL: a letter, and a name. One that does not begin with a letter is none.
fn fetch<'a, N: Read + Seek>(
    list: &mut N,
    at: u64,
    entry: &'a mut [u8; ENTRY_BYTES],
) -> io::Result<(u8, &'a [u8])>
    ensures { IfOk result (λ entry. length entry.1.now ≤ 4097) }
{
    list.seek(SeekFrom::Start(at))?;
    let n = list.read(entry)?;
    let end = names::name_end(&entry[..n], 0, 0);
    match &entry[..end] {
        [letter, name @ ..] => Ok((*letter, name)),
        [] => Err(io::Error::from(ErrorKind::UnexpectedEof)),
    }
}

// The captures that the open file of names has.
fn audit_names<R: Files, N: Read + Seek, O: Write, E: Write>(
    system: &R,
    list: &mut N,
    captures: &mut Captures,
    report: &mut Report<O, E>,
) -> Result<(), Told>
where
    R::File: IsTerminal,
{
    let last = end_by_system(list).map_err(|failure| report.names_lost(failure))?;
    let size = last.min(MOST_NAMES);
    let mut entry = [0u8; ENTRY_BYTES];
    let mut at = 0;
    let mut number = 0;
    // No `for` has these turns: each entry says itself how long it is.
    while at < size {
        let (letter, name) = fetch(list, at, &mut entry).map_err(|failure| report.names_lost(
            failure,
        ))?;
        number += 1;
        report.add(name, look_by_letter(system, captures, letter, name, number))?;
        at += name.len() as u64 + 2;
    }
    Ok(())
}

// The captures that are asked for.
fn audit<R: Env + Files, O: Write, E: Write>(
    system: &R,
    captures: &mut Captures,
    report: &mut Report<O, E>,
) -> Result<Status, Told>
where
    R::File: IsTerminal,
{
    if report.wish.stream {
        let mut list = descriptors::open_names(system).map_err(|failure| report.names_lost(
            failure,
        ))?;
        audit_names(system, &mut list, captures, report)?;
    } else {
        audit_arguments(system, captures, report)?;
    }
    report.write_totals()?;
    Ok(status_of(report.totals))
}

// A run that could not read every name or write every line has no totals.
fn main(rt: HostRuntime) {
    let wish = asked(&rt);
    let mut report = Report::new(wish, Outputs::new(rt.stdout(), rt.stderr()));
    let mut captures = Captures {
        file: [0; MOST_BYTES],
        judge: Judge::new(wish.choice),
    };
    let status = audit(&rt, &mut captures, &mut report).unwrap_or(Status::Unread);
    let _ = descriptors::report(&rt, &status.line());
}
