// The types that answers are made of, and the names of the rows. What they mean is said in specs/, in the order and words of document 01.
#![tactic(auto)]

pub mod faults;
pub mod names;

// Why a capture is refused, in document 01's order: its numbers 1 to 21. 22 is the writer's, of request 4.
#[derive(Clone, Copy, PartialEq, Eq)]
pub enum Reason {
    WrongCounts,
    AddressUnaligned,
    EndsTooHigh,
    WindowsShare,
    BudgetSpent,
    RanOff,
    UnknownHeader,
    WrongLength,
    PastTheWindow,
    BitNotAllowed,
    NestedStart,
    ValueBroken,
    RangeOutside,
    BaseNeverSet,
    StructureNowhere,
    StructureBit,
    StructureValue,
    RecordsFull,
    FileSize,
    FileDistance,
    BufferShort,
    NoRoom,
}

// A reason and its place: window 0 is the batch, window 1 the state. The window is a number, as document 01 has it and C is answered (`Answer`).
#[derive(Clone, Copy, PartialEq, Eq)]
pub struct Fault {
    pub reason: Reason,
    pub window: usize,
    pub index: usize,
}

// The answer to a capture: reason 0 is accepted.
#[repr(C)]
#[derive(Clone, Copy, PartialEq, Eq)]
pub struct Answer {
    pub reason: u32,
    pub window: u32,
    pub index: u32,
    pub count: u32,
}

// The answer to a listing that is turned (request 7), which may have more than 2^32 words.
#[repr(C)]
#[derive(Clone, Copy, PartialEq, Eq)]
pub struct LongAnswer {
    pub reason: u32,
    pub window: u32,
    pub index: u64,
    pub count: u64,
}

// A window: its address, and its length in bytes.
#[derive(Clone, Copy)]
pub struct Window {
    pub at: u64,
    pub bytes: u64,
}

// The three windows of a capture, as numbers.
#[derive(Clone, Copy)]
pub struct Windows {
    pub batch: Window,
    pub state: Window,
    pub scratch: Window,
}

// Which windows an address range may lie in.
#[derive(Clone, Copy, PartialEq, Eq)]
pub enum Within {
    BatchOnly,
    ScratchOnly,
    AnyWindow,
}

// Whether a dword is the low dword of an address that its command uses: for how many bytes, and where they may lie; or used with no range asked.
#[derive(Clone, Copy, PartialEq, Eq)]
pub enum Access {
    Unused,
    Reaches(u64, Within),
    NoRange,
}

// Which of the two lent windows holds a structure, and at which dword it starts there.
#[derive(Clone, Copy, PartialEq, Eq)]
pub enum Held {
    InBatch(usize),
    InState(usize),
}

// The structures that a command can point to.
#[derive(Clone, Copy, PartialEq, Eq)]
pub enum Kind {
    Viewport,
    ColourCalc,
    Blend,
}

// What reading a structure gives back: a depth range, a colour state, a blend state, which has no floats, or its refusal. Document 01 names the form of
// this answer, one enum with a case for each; as a `Result` of the values it also costs four instructions in every command of the plain engine (33 for a
// no-op, and 1.14 of C's).
#[derive(Clone, Copy)]
pub enum Reading {
    Depths(f32, f32),
    Colour(f32, f32, f32, f32),
    Blending,
    Unreadable(Fault),
}

// The level of a run. At the second the position to return to is kept. It is no `Option` of that position: `First` and `Second` are document 01's words, and
// `None` for the first level would say less.
#[derive(Clone, Copy, PartialEq, Eq)]
pub enum Level {
    First,
    Second(usize),
}

// Which base a walk starts with (request 5): the state window's address, which is the default, or none.
#[derive(Clone, Copy, PartialEq, Eq)]
pub enum BaseChoice {
    StateWindow,
    NoBase,
}

// Where a walk stands, and the dynamic state base, where that was set.
#[derive(Clone, Copy)]
pub struct Cursor {
    pub at: usize,
    pub level: Level,
    pub base: Option<u64>,
}

// A command that was accepted.
#[derive(Clone, Copy)]
pub struct Command {
    pub index: usize,
    pub level: usize,
    pub row: usize,
    pub length: usize,
}

// A window that a capture file fills: its address, and its count of dwords.
#[derive(Clone, Copy)]
pub struct Filled {
    pub at: u64,
    pub count: usize,
}

// What a capture file holds beside its dwords.
#[derive(Clone, Copy)]
pub struct Contents {
    pub batch: Filled,
    pub state: Filled,
    pub scratch: Window,
}
