// What the programs share of a run over files: the letters of the word that says how it is to go, the worst status, and the line that tells it.
#![tactic(auto)]

ghost use Rattle.std.specs.Prelude.{◌≡◌, max};
ghost use Rattle.reports.specs.Reports.{has_letter, base_choice, number_of, status_line};

pub mod judge;

use rules::BaseChoice;

// The largest capture has 32,808 bytes. One byte more shows that a file is longer.
pub const MOST_BYTES: usize = 32809;

// The status of a file, and of a run over files, from the best to the worst.
#[derive(Clone, Copy, Debug, PartialEq, Eq, PartialOrd, Ord)]
pub enum Status {
    Accepted,
    Refused,
    Unread,
}

// Whether a letter stands in a word.
#[tactic(auto, using(crate::proofs::Letters::contained))]
pub fn has_letter(word: &[u8], letter: u8) -> bool
    ensures { result ≡ has_letter word.now letter }
{
    word.contains(&letter)
}

// The base that captures are judged by: none where the word has the letter n, and else the state window's address.
#[tactic(auto, unfolding(crate::specs::Reports::base_choice))]
pub fn base_choice(word: &[u8]) -> BaseChoice
    ensures { result ≡ base_choice word.now }
{
    if has_letter(word, b'n') {
        BaseChoice::NoBase
    } else {
        BaseChoice::StateWindow
    }
}

impl Status {
    // The status of two runs together: the worse counts.
    #[tactic(auto, unfolding(crate::specs::Reports::number_of))]
    pub fn worse(self, other: Status) -> Status
        ensures { number_of result ≡ max (number_of self) (number_of other) }
    {
        self.max(other)
    }

    // The line that tells it.
    #[tactic(auto, unfolding(crate::specs::Reports::number_of))]
    pub fn line(self) -> [u8; 9]
        ensures { result ≡ status_line (number_of self) }
    {
        status_line(self as u8)
    }
}

// The same of statuses by their numbers, 0, 1 and 2. A program may have worse ones of its own.
pub fn worse(a: u8, b: u8) -> u8
    ensures { result ≡ max a b }
{
    a.max(b)
}

// The line that a program ends with, for the launcher. Anything worse than refused is told as unread.
#[tactic(auto, unfolding(crate::specs::Reports::status_line))]
pub fn status_line(status: u8) -> [u8; 9]
    ensures { result ≡ status_line status }
{
    let mut line = *b"status 0\n";
    line[7] += status.min(2);
    line
}
