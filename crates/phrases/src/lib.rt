// The tables of words: what each refusal, command, access and error is called. No text has over 64 bytes.
#![tactic(auto)]

ghost use Rattle.std.specs.Prelude.{◌≤◌, ◌≡◌, length};
ghost use Rattle.phrases.specs.Words.{reason_words, writing_words, command_words, access_words, within_words, error_words};
ghost use Rattle.phrases.specs.Tables.{text_in};

use rules::Within;
use rules::names::ROWS;

// What each of document 01's numbers means, from 0 on, which is no reason.
const REASONS: [&[u8]; 22] = [
    b"",
    b"the batch is empty, or a window has over 4,096 dwords",
    b"a window's address is not a multiple of 4,096",
    b"a window ends above 2^48",
    b"two windows share a byte",
    b"65,536 commands did not end the run",
    b"the run has not ended there",
    b"no known command starts with this dword",
    b"the command cannot have this length",
    b"the command goes past the end of the batch",
    b"a bit is set that is not allowed",
    b"a second-level batch starts a batch",
    b"a value is not allowed",
    b"an address range does not fit",
    b"the base of this pointer was never set",
    b"the structure lies in neither the batch nor the state window",
    b"a structure has a bit set that is not allowed",
    b"a value in a structure is not allowed",
    b"the run has not ended after 4,096 commands",
    b"the file is shorter than its trailer or longer than any capture",
    b"the length of the file and its trailer do not agree",
    b"a lent buffer is too short",
];

// What the numbers of the writer mean, of a line that compose reads, from 0 on; most are none of its numbers.
const WRITING: [&[u8]; 23] = [
    b"",
    b"",
    b"",
    b"",
    b"",
    b"",
    b"",
    b"the table has no such row",
    b"the row has no command with so many dwords (row 4: by bit 21)",
    b"",
    b"a bit of FREE or of a dword is set that is not allowed",
    b"",
    b"",
    b"",
    b"",
    b"",
    b"",
    b"",
    b"",
    b"",
    b"",
    b"",
    b"there is no room for it in the 4,096 dwords",
];

// The commands of document 01's table, by row.
const COMMANDS: [&[u8]; ROWS] = [
    b"MI_NOOP",
    b"MI_BATCH_BUFFER_END",
    b"MI_BATCH_BUFFER_START",
    b"MI_LOAD_REGISTER_IMM",
    b"MI_STORE_DATA_IMM",
    b"MI_STORE_REGISTER_MEM",
    b"MI_LOAD_REGISTER_MEM",
    b"PIPE_CONTROL",
    b"PIPELINE_SELECT",
    b"STATE_BASE_ADDRESS",
    b"3DSTATE_VERTEX_BUFFERS",
    b"3DSTATE_VERTEX_ELEMENTS",
    b"3DSTATE_INDEX_BUFFER",
    b"3DSTATE_VF_TOPOLOGY",
    b"3DSTATE_VIEWPORT_STATE_POINTERS_CC",
    b"3DSTATE_CC_STATE_POINTERS",
    b"3DPRIMITIVE",
    b"3DSTATE_BLEND_STATE_POINTERS",
];

// What the command of a row does with its address; most have none.
const ACCESSES: [&[u8]; ROWS] = [
    b"",
    b"",
    b"jump to",
    b"",
    b"store to",
    b"store to",
    b"load from",
    b"store to",
    b"",
    b"",
    b"vertex buffer of",
    b"",
    b"index buffer of",
    b"",
    b"",
    b"",
    b"",
    b"",
];

// What the system calls its errors, from 0 on, which is none.
const ERRORS: [&[u8]; 41] = [
    b"no reason is known",
    b"Operation not permitted",
    b"No such file or directory",
    b"No such process",
    b"Interrupted system call",
    b"Input/output error",
    b"No such device or address",
    b"Argument list too long",
    b"Exec format error",
    b"Bad file descriptor",
    b"No child processes",
    b"Resource temporarily unavailable",
    b"Cannot allocate memory",
    b"Permission denied",
    b"Bad address",
    b"Block device required",
    b"Device or resource busy",
    b"File exists",
    b"Invalid cross-device link",
    b"No such device",
    b"Not a directory",
    b"Is a directory",
    b"Invalid argument",
    b"Too many open files in system",
    b"Too many open files",
    b"Inappropriate ioctl for device",
    b"Text file busy",
    b"File too large",
    b"No space left on device",
    b"Illegal seek",
    b"Read-only file system",
    b"Too many links",
    b"Broken pipe",
    b"Numerical argument out of domain",
    b"Numerical result out of range",
    b"Resource deadlock avoided",
    b"File name too long",
    b"No locks available",
    b"Function not implemented",
    b"Directory not empty",
    b"Too many levels of symbolic links",
];

// The text at a place of a table: there is none past its end.
fn text_in(table: &[&'static [u8]], i: usize) -> &'static [u8]
    ensures { result.now ≡ text_in table.now i }
{
    table.get(i).copied().unwrap_or(b"")
}

// A number that is no reason has no words.
pub fn reason_words(reason: u32) -> &'static [u8]
    ensures words { result.now ≡ reason_words reason }
    ensures short { length result.now ≤ 64 }
{
    text_in(&REASONS, reason as usize)
}

// A number that the writer never answers has no words.
pub fn writing_words(reason: u32) -> &'static [u8]
    ensures words { result.now ≡ writing_words reason }
    ensures short { length result.now ≤ 64 }
{
    text_in(&WRITING, reason as usize)
}

// A number that is no row has no name.
pub fn command_words(row: usize) -> &'static [u8]
    ensures words { result.now ≡ command_words row }
    ensures short { length result.now ≤ 64 }
{
    text_in(&COMMANDS, row)
}

pub fn access_words(row: usize) -> &'static [u8]
    ensures words { result.now ≡ access_words row }
    ensures short { length result.now ≤ 64 }
{
    text_in(&ACCESSES, row)
}

// Where an address range should lie.
#[tactic(auto, unfolding(crate::specs::Words::within_words))]
pub fn within_words(within: Within) -> &'static [u8]
    ensures words { result.now ≡ within_words within }
    ensures short { length result.now ≤ 64 }
{
    match within {
        Within::BatchOnly => b"the batch",
        Within::ScratchOnly => b"scratch",
        Within::AnyWindow => b"one window",
    }
}

// A number past the table has no words.
pub fn error_words(error: usize) -> &'static [u8]
    ensures words { result.now ≡ error_words error }
    ensures short { length result.now ≤ 64 }
{
    text_in(&ERRORS, error)
}
