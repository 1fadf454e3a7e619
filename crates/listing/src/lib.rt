// Turning an old listing, of records of one word, into the new form of two words (request 7): the words of the one in, those of the other in a lent buffer out.
#![tactic(auto)]

ghost use Rattle.std.specs.Prelude.{◌≡◌, ◌≤◌, length, Ok, Err};
ghost use Rattle.std.specs.List.{position};
ghost use Rattle.rules.specs.Refusals.{batch_window, fault};
ghost use Rattle.rules.specs.Records.{first_word, second_word, words_for};
ghost use Rattle.rules.specs.Listings.{old_command_of, stray_bits, long_answer, turned_by, Turned};

use rules::{LongAnswer, Reason};

// Whether an old word has one of the bits 15:13, which no record has.
fn stray(word: u32) -> bool
    ensures { result ≡ stray_bits word }
{
    word / 0x2000 % 8 != 0
}

// The first old word that has one.
fn first_stray(old: &[u32]) -> Option<usize>
    ensures { result ≡ position (λ word. stray_bits word) old.now }
{
    old.iter().position(|word| stray(*word))
}

// The first word of the new record: the index, and the level in bit 16, which was bit 12.
#[tactic(auto, unfolding(rules::specs::Records::first_word, rules::specs::Listings::old_command_of))]
fn first_word(word: u32) -> u32
    ensures { result ≡ first_word (old_command_of word) }
{
    word % 0x1000 + word / 0x1000 % 2 * 0x1_0000
}

// The second: length and row, in their old bits.
#[tactic(auto, unfolding(rules::specs::Records::second_word, rules::specs::Listings::old_command_of))]
fn second_word(word: u32) -> u32
    ensures { result ≡ second_word (old_command_of word) }
{
    word / 0x1_0000 * 0x1_0000
}

// Writes the new records into a buffer that has room for them.
fn fill(old: &[u32], new: &mut [u32])
    requires { words_for (length old.now) ≤ length new.old }
    ensures { new.new ≡ turned_by (Ok tt) old.now new.old }
{
    for (i, word) in old.iter().enumerate() {
        new[2 * i] = first_word(*word);
        new[2 * i + 1] = second_word(*word);
    }
}

// The answer to a refusal.
fn refused(reason: Reason, index: usize) -> LongAnswer
    ensures { result ≡ long_answer (Err (fault reason batch_window index)) 0 }
{
    LongAnswer {
        reason: reason.into(),
        window: 0,
        index: index as u64,
        count: 0,
    }
}

// Turns an old listing, or refuses it and leaves the buffer as it was.
pub fn turn(old: &[u32], new: &mut [u32]) -> LongAnswer
    ensures { Turned old.now new.old result new.new }
{
    // 10
    if let Some(i) = first_stray(old) {
        return refused(Reason::BitNotAllowed, i);
    }
    // 18: two words for each old one, by halves, since the double may not fit
    if new.len() / 2 < old.len() {
        return refused(Reason::RecordsFull, 0);
    }
    fill(old, new);
    LongAnswer {
        reason: 0,
        window: 0,
        index: 0,
        count: old.len() as u64,
    }
}
