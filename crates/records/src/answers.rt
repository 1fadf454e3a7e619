// The answer for a fault, or for the end of a run.
ghost use Rattle.std.specs.Prelude.{◌≡◌, ◌^◌, ◌<◌, Ok, Err};
ghost use Rattle.rules.specs.Refusals.{answer_with};

use rules::{Answer, Fault};

// The answer of a run that a fault ended after so many commands.
#[tactic(auto, unfolding(rules::specs::Refusals::answer_with))]
pub fn refusal(f: Fault, count: usize) -> Answer
    requires { (f.window < 2 ^ 32) × (f.index < 2 ^ 32) × (count < 2 ^ 32) }
    ensures { result ≡ answer_with (Err f) count }
{
    let reason = f.reason;
    Answer {
        reason: reason.into(),
        window: f.window as u32,
        index: f.index as u32,
        count: count as u32,
    }
}

// The answer of a run that ended after so many commands.
#[tactic(auto, unfolding(rules::specs::Refusals::answer_with))]
pub fn acceptance(count: usize) -> Answer
    requires { count < 2 ^ 32 }
    ensures { result ≡ answer_with (Ok tt) count }
{
    Answer {
        reason: 0,
        window: 0,
        index: 0,
        count: count as u32,
    }
}
