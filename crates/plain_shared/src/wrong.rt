// What is wrong with a command, as a row's function answers it: `Result<(), Wrong>`.
ghost use Rattle.std.specs.Prelude.{◌≡◌, ◌+◌, ◌*◌, ◌/◌, ◌%◌, ◌^◌, ◌≤◌, ◌<◌};
ghost use Rattle.rules.specs.Refusals.{batch_window, number_of};

use rules::{Fault, Reason};

// The refusal's number * 256 + the dword's number in the command, which has at most 133 dwords. In one word: with a reason and a number as two fields,
// `bench/draft` counts no-ops 139,455 (118,978 so) and mixed rows 64,475 (59,040), above the bar of 5 %.
#[derive(Clone, Copy)]
pub struct Wrong {
    code: usize,
    ghost some: { 0 < code },
}

impl Wrong {
    // The refusal for this reason at a dword of the command.
    pub fn at(reason: Reason, k: usize) -> Wrong
        requires { k < 2 ^ 62 }
        ensures { result.code ≡ 256 * number_of reason + k }
    {
        Wrong {
            code: 256 * u32::from(reason) as usize + k,
        }
    }

    // The reason, of those that this engine finds.
    fn reason(self) -> Reason
        requires { (7 * 256 ≤ self.code) × (self.code < 14 * 256) }
        ensures { number_of result ≡ self.code / 256 }
    {
        match self.code / 256 {
            7 => Reason::UnknownHeader,
            8 => Reason::WrongLength,
            9 => Reason::PastTheWindow,
            10 => Reason::BitNotAllowed,
            11 => Reason::NestedStart,
            12 => Reason::ValueBroken,
            _ => Reason::RangeOutside,
        }
    }

    // The fault, of the command at a position.
    pub fn fault(self, at: usize) -> Fault
        requires { (7 * 256 ≤ self.code) × (self.code < 14 * 256) × (at + 256 < 2 ^ 63) }
        ensures { (number_of result.reason ≡ self.code / 256) × (result.window ≡ batch_window) × (result.index ≡ at + self.code % 256) }
    {
        Fault::in_batch(self.reason(), at + self.code % 256)
    }
}
