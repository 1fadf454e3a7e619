// Why the system did not give a file, in words: each part is put behind what stands in the line, as in `parts`.
ghost use Rattle.std.specs.Prelude.{cond, ◌++◌};
ghost use Rattle.rules.specs.Printout.{bytes};
ghost use Rattle.lines.specs.Writing.{Room, Puts};
ghost use Rattle.clauses.specs.Clauses.{error_text, unread_words, is_missing};

use crate::{Unread, is_missing};
use lines::OpenLine;
use phrases::error_words;

pub fn put_verdict(line: &mut OpenLine, why: Unread)
    requires { Room 11 line.old }
    ensures { Puts 11 (cond (is_missing why) (bytes ": missing: ") (bytes ": unread: ")) line.old line.new }
{
    if is_missing(why) {
        line.put_text(b": missing: ");
    } else {
        line.put_text(b": unread: ");
    }
}

// An error of the system: the table has words for those up to 40.
fn put_error(line: &mut OpenLine, error: usize)
    requires { Room 83 line.old }
    ensures { Puts 83 (bytes "it cannot be read: " ++ error_text error) line.old line.new }
{
    line.put_text(b"it cannot be read: ");
    if error <= 40 {
        line.put_text(error_words(error));
        return;
    }
    line.put_text(b"error ");
    line.put_decimal(error);
}

pub fn put_unread(line: &mut OpenLine, why: Unread)
    requires { Room 83 line.old }
    ensures { Puts 83 (unread_words why) line.old line.new }
{
    match why {
        Unread::NoSuchFile => line.put_text(b"there is no such file"),
        Unread::NotAllowed => line.put_text(b"it may not be read"),
        Unread::Folder => line.put_text(b"it is a folder"),
        Unread::NameTooLong => line.put_text(b"the name is longer than the system takes"),
        Unread::Changed => line.put_text(b"it changed while it was read"),
        Unread::NoRegularFile => line.put_text(b"it is no regular file"),
        Unread::Other(error) => put_error(line, error),
    }
}
