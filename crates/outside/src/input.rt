// Reading: into a buffer until it is full or the input ends, and whether an input goes on behind its end.
ghost use Rattle.std.specs.Prelude.{◌≡◌, ◌≢◌, ◌+◌, ◌<◌, ◌≤◌, [], Ok, true, length, take, drop, IsNone, IfOk, IfSome, OnErr};
ghost use Rattle.std.specs.Io.KnownBytes.{Consumes, IsAtEnd, Keeps};

use std::io;
use std::io::{IsTerminal, Read};

// How many bytes of an input stand at the start of a buffer, and the failure of the read that ended it, if one did. It is no `io::Result`, since the
// clause `consumed` of `fill` says how many were read also where a read failed.
#[derive(Drop)]
pub struct Filled {
    pub count: usize,
    pub failure: Option<io::Error>,
}

// Reads once, into a buffer from a place on.
fn read_at<R: Read>(input: &mut R, bytes: &mut [u8], at: usize) -> io::Result<usize>
    requires { at < length bytes.old }
    ensures front { take at bytes.new ≡ take at bytes.old }
    ensures fits { IfOk result (λ n. at + n ≤ length bytes.new) }
    ensures ok { IfOk result (λ n. Consumes (R.remaining input.old) (R.remaining input.new) (take n (drop at bytes.new))) }
    ensures end { IfOk result (λ n. n ≡ 0 → IsAtEnd (R.remaining input.new)) }
    ensures err { OnErr result (Keeps (R.remaining input.old) (R.remaining input.new)) }
{
    input.read(&mut bytes[at..])
}

// Reads until the buffer is full, the input ends, or a read fails.
pub fn fill<R: Read>(input: &mut R, bytes: &mut [u8]) -> Filled
    ensures within { result.count ≤ length bytes.new }
    ensures consumed { Consumes (R.remaining input.old) (R.remaining input.new) (take result.count bytes.new) }
    ensures ended { IsNone result.failure → result.count < length bytes.new → IsAtEnd (R.remaining input.new) }
{
    let mut count = 0;
    // No `for` has these turns: each read says itself how far it comes.
    while count < bytes.len() {
        match read_at(input, bytes, count) {
            Ok(0) => break,
            Ok(more) => count += more,
            Err(why) => {
                return Filled {
                    count,
                    failure: Some(why),
                };
            }
        }
    }
    Filled {
        count,
        failure: None,
    }
}

// Whether an input goes on behind its end, since it has grown. A terminal is not asked: it would wait for a second end.
pub fn goes_on<R: Read + IsTerminal>(input: &mut R) -> io::Result<bool>
    ensures more { result ≡ Ok true → IfSome (R.remaining input.old) (λ xs. xs ≢ []) }
{
    if input.is_terminal() {
        return Ok(false);
    }
    let mut byte = [0u8; 1];
    Ok(input.read(&mut byte)? > 0)
}
