// The words that a program is started with, as bytes: they need be no text.
ghost use Rattle.std.specs.Prelude.{◌≤◌, length};

use std::env::FillError;
use std::rt::Env;

// How many words there are. The first is the program's own name.
pub fn count(env: &impl Env) -> usize {
    let mut byte = [0u8; 1];
    for i in 0..usize::MAX {
        if let Err(FillError::NotPresent) = env.arg(i, &mut byte) {
            return i;
        }
    }
    usize::MAX
}

// A word, put into a buffer. One that is not there has no byte, and so has one that is longer than the buffer.
pub fn whole<'a>(env: &impl Env, i: usize, buffer: &'a mut [u8]) -> &'a [u8]
    ensures { length result.now ≤ length buffer.old }
{
    let n = env.arg(i, buffer).unwrap_or(0);
    &buffer[..n]
}

// The same, but of one that is longer than the buffer there are the first bytes, as many as fill it.
pub fn front<'a>(env: &impl Env, i: usize, buffer: &'a mut [u8]) -> &'a [u8]
    ensures { length result.now ≤ length buffer.old }
{
    match env.arg(i, buffer) {
        Ok(n) => &buffer[..n],
        Err(FillError::TooLong) => buffer,
        Err(FillError::NotPresent) => &[],
    }
}
