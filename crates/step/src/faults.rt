// The structure that a command points to, and what is wrong with it (14 to 17).
ghost use Rattle.std.specs.Prelude.{◌≡◌, cond, None, Some};
ghost use Rattle.rules.specs.Words.{bit, cleared};
ghost use Rattle.rules.specs.Structures.{read_at, verdict_of};
ghost use Rattle.rules.specs.Step.{pointer_of};
ghost use Rattle.step.specs.Parts.{captured, SmallBase, structural_of};

use rules::names::{BLEND_ROW, COLOUR_ROW, VIEWPORT_ROW};
use rules::{Fault, Kind, Reading, Reason, Windows};
use words::dwords::dword;

// A structure of this kind, where bit 0 of its pointer is set, and how far above the base.
fn pointed(kind: Kind, pointer: u32) -> Option<(Kind, u32)>
    ensures { result ≡ cond (bit pointer 0) (Some (kind, cleared pointer 6)) None }
{
    if pointer % 2 != 1 {
        return None;
    }
    Some((kind, pointer / 64 * 64))
}

// The structure that the command points to, and how far above the base.
#[tactic(auto, unfolding(rules::specs::Step::pointer_of))]
pub fn pointer_of(row: usize, command: &[u32]) -> Option<(Kind, u32)>
    ensures { result ≡ pointer_of row command.now }
{
    if row < VIEWPORT_ROW {
        return None;
    }
    let pointer = dword(command, 1);
    match row {
        VIEWPORT_ROW => Some((Kind::Viewport, pointer / 32 * 32)),
        COLOUR_ROW => pointed(Kind::ColourCalc, pointer),
        BLEND_ROW => pointed(Kind::Blend, pointer),
        _ => None,
    }
}

// What a read says of the capture.
#[tactic(auto, unfolding(rules::specs::Structures::verdict_of))]
fn verdict_of(reading: Reading) -> Result<(), Fault>
    ensures { result ≡ verdict_of reading }
{
    match reading {
        Reading::Depths(_, _) => Ok(()),
        Reading::Colour(_, _, _, _) => Ok(()),
        Reading::Blending => Ok(()),
        Reading::Unreadable(f) => Err(f),
    }
}

// What the read of a structure says of the capture.
fn verdict_at<'a>(
    batch: &'a [u32],
    state: &'a [u32],
    w: Windows,
    kind: Kind,
    address: u64,
    place: usize,
) -> Result<(), Fault>
    ensures { result ≡ verdict_of (read_at batch.now w.batch.at state.now w.state.at kind address place) }
{
    verdict_of(structures::read(batch, w.batch.at, state, w.state.at, kind, address, place))
}

// The first fault of the structure that is pointed to, in the order of 14 to 17. The compiler joins the three calls into one read for all kinds, but
// inlines it later, into the step, than it would one call written here: with that one most rows of the plain engine take more instructions.
pub fn structure_fault<'a>(
    batch: &'a [u32],
    state: &'a [u32],
    w: Windows,
    pointer: Option<(Kind, u32)>,
    base: Option<u64>,
    place: usize,
) -> Result<(), Fault>
    requires { SmallBase base }
    ensures { result ≡ structural_of (captured w batch.now state.now) place pointer base }
{
    let Some((kind, offset)) = pointer else {
        return Ok(());
    };
    let Some(b) = base else {
        return Err(Fault::in_batch(Reason::BaseNeverSet, place));
    };
    let address = b + offset as u64;
    match kind {
        Kind::Viewport => verdict_at(batch, state, w, Kind::Viewport, address, place),
        Kind::ColourCalc => verdict_at(batch, state, w, Kind::ColourCalc, address, place),
        Kind::Blend => verdict_at(batch, state, w, Kind::Blend, address, place),
    }
}
