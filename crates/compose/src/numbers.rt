// What a word of a line stands for: a row, by its number or by its command's name, or a dword.
ghost use Rattle.compose.specs.Names.{Named};

use crate::reading::WORD_BYTES;
use rules::names::ROWS;
use sentences::WORDS_BYTES;

// A hexadecimal number of one to eight digits: more are refused also where they are zeros, since a dword is written with eight.
pub(crate) fn hexadecimal(word: &[u8]) -> Option<u32> {
    if word.len() > 8 {
        return None;
    }
    let mut x: u32 = 0;
    for byte in word {
        x = (x << 4) | char::from(*byte).to_digit(16)?;
    }
    Some(x)
}

// A decimal number that fits 32 bits.
fn decimal(word: &[u8]) -> Option<u32> {
    let mut x: u32 = 0;
    for byte in word {
        let digit = char::from(*byte).to_digit(10)?;
        x = x.checked_mul(10)?.checked_add(digit)?;
    }
    Some(x)
}

// The row whose command has that name.
fn named(word: &[u8]) -> Option<u32>
    ensures { Named word.now result }
{
    let mut name = [0u8; WORDS_BYTES];
    for row in 0..ROWS {
        let n = sentences::command_words(&mut name, row);
        if &name[..n] == word {
            return Some(row as u32);
        }
    }
    None
}

// A row. Some names begin with a digit, and none is a number. Of a word that fills its room the end may be missing.
pub(crate) fn row(word: &[u8]) -> Option<u32> {
    if word.len() >= WORD_BYTES {
        return None;
    }
    decimal(word).or_else(|| named(word))
}
