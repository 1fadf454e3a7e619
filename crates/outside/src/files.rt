// Files by their names, which are bytes and need be no text.
use crate::descriptors::open_link;
use std::fs::File;
use std::io;
use std::rt::Files;

// A path has fewer bytes than this.
const PATH_BYTES: usize = 4096;

// The system's number for a name that is too long: the message has the system's words for it, which std's kind has not.
const NAME_TOO_LONG: i32 = 36;

// Opens a file to be read, by its name and by the number that the name has among those that the program is started with or reads. Today's library takes
// only a name that is UTF-8; for any other the launcher has put a link.
pub fn open<R: Files>(files: &R, name: &[u8], number: usize) -> io::Result<R::File> {
    if PATH_BYTES <= name.len() {
        return Err(io::Error::from_raw_os_error(NAME_TOO_LONG));
    }
    match str::from_utf8(name) {
        Ok(path) => File::open(files, path),
        Err(_) => open_link(files, number),
    }
}
