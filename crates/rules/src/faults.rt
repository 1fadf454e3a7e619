// Document 01's number of a reason, and a fault in the batch.
ghost use Rattle.std.specs.Prelude.{◌≡◌};
ghost use Rattle.rules.specs.Refusals.{batch_window, fault, number_of};

use crate::{Fault, Reason};

// Document 01's number for a reason.
impl From<Reason> for u32 {
    ghost from_gives = { λ reason n. n ≡ number_of reason };

    #[tactic(auto, unfolding(crate::specs::Refusals::number_of))]
    fn from(reason: Reason) -> u32 {
        match reason {
            Reason::WrongCounts => 1,
            Reason::AddressUnaligned => 2,
            Reason::EndsTooHigh => 3,
            Reason::WindowsShare => 4,
            Reason::BudgetSpent => 5,
            Reason::RanOff => 6,
            Reason::UnknownHeader => 7,
            Reason::WrongLength => 8,
            Reason::PastTheWindow => 9,
            Reason::BitNotAllowed => 10,
            Reason::NestedStart => 11,
            Reason::ValueBroken => 12,
            Reason::RangeOutside => 13,
            Reason::BaseNeverSet => 14,
            Reason::StructureNowhere => 15,
            Reason::StructureBit => 16,
            Reason::StructureValue => 17,
            Reason::RecordsFull => 18,
            Reason::FileSize => 19,
            Reason::FileDistance => 20,
            Reason::BufferShort => 21,
            Reason::NoRoom => 22,
        }
    }
}

impl Fault {
    // A fault in the batch, at this dword.
    pub fn in_batch(reason: Reason, index: usize) -> Fault
        ensures { result ≡ fault reason batch_window index }
    {
        Fault {
            reason,
            window: 0,
            index,
        }
    }
}
