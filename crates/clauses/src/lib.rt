// The parts of what audit and compose say, in plain words: `parts` of a line, the `details` of a refusal, and `why` a file was not read.
#![tactic(auto)]

ghost use Rattle.std.specs.Prelude.{◌≡◌};
ghost use Rattle.clauses.specs.Clauses.{is_missing};

use rules::Within;

pub mod details;
pub mod parts;
pub mod why;

// Why a file was not read.
#[derive(Clone, Copy)]
pub enum Unread {
    NoSuchFile,
    NotAllowed,
    Folder,
    NameTooLong,
    Changed,
    NoRegularFile,
    // the system's error, by its number
    Other(usize),
}

// What happened at a refusal, beside its reason: the row of the command; for 13 the address that it uses with it, how many bytes, and where
// they should lie; or the file's size, where that is known.
#[derive(Clone, Copy)]
pub enum Detail {
    NoMore,
    InCommand(usize),
    Reach(usize, u64, u64, Within),
    HasBytes(u64),
    HasTooMany,
}

// Whether a file is not there: then it is missing, and else it is unread.
#[tactic(auto, unfolding(crate::specs::Clauses::is_missing))]
pub fn is_missing(why: Unread) -> bool
    ensures { result ≡ is_missing why }
{
    matches!(why, Unread::NoSuchFile)
}
