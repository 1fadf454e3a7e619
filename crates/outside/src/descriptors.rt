// The descriptors that the launcher opens for a program.
use crate::output::write_all;
use arrayvec::ArrayString;
use std::fmt::Write as _;
use std::fs::{File, OpenOptions, symlink_metadata};
use std::io;
use std::io::{ErrorKind, Read};
use std::rt::Files;

// The system's numbers for a descriptor that is not open, and for bytes that are no text: std has no kinds for them, and a message has the system's words.
const NOT_OPEN: i32 = 9;

const NO_TEXT: i32 = 84;

// The longest path that is made here has 42 bytes.
const PATH_BYTES: usize = 64;

// Opens what descriptor 5 is open on, where the file of names is, to be read from a place of its own.
pub fn open_names<R: Files>(files: &R) -> io::Result<R::File> {
    File::open(files, "/proc/self/fd/5").map_err(|e| match e.kind() {
        ErrorKind::NotFound => io::Error::from_raw_os_error(NOT_OPEN),
        _ => e,
    })
}

// Opens the file that a link in the folder on descriptor 7 leads to. The launcher puts one there for a name that is no text.
pub(crate) fn open_link<R: Files>(files: &R, number: usize) -> io::Result<R::File> {
    let mut path: ArrayString<PATH_BYTES> = ArrayString::new();
    let _ = write!(path, "/proc/self/fd/7/name-{number}");
    if symlink_metadata(files, path.as_str()).is_err() {
        return Err(io::Error::from_raw_os_error(NO_TEXT));
    }
    File::open(files, path.as_str())
}

// Whether a descriptor may be written, by what the system tells of it: its flags are in octal, and their lowest digit is 1 or 2 then.
fn may_be_written(told: &str) -> bool {
    told.lines()
        .find(|line| line.starts_with("flags:"))
        .is_some_and(|line| matches!(line.as_bytes().last(), Some(b'1' | b'2')))
}

// Whether descriptor 3 may be written. One that may only be read is nobody's to write, and opened anew it could be.
fn may_report<R: Files>(files: &R) -> io::Result<bool> {
    let mut text = [0u8; 64];
    let n = File::open(files, "/proc/self/fdinfo/3")?.read(&mut text)?;
    Ok(str::from_utf8(&text[..n]).is_ok_and(may_be_written))
}

// Writes the program's report to descriptor 3, behind what stands there.
pub fn report<R: Files>(files: &R, line: &[u8]) -> io::Result<()> {
    if !may_report(files)? {
        return Err(io::Error::from_raw_os_error(NOT_OPEN));
    }
    let mut file = OpenOptions::new()
        .append(true)
        .open(files, "/proc/self/fd/3")?;
    write_all(&mut file, line)
}
