// The values of a state structure: whether they break a rule (17), and what they are where they do not.
#![tactic(auto)]

ghost use Rattle.std.specs.Prelude.{◌≡◌, false, cond, [], ◌∷◌, ◌+◌, ◌-◌, ◌^◌, leb, get_or, None};
ghost use Rattle.rules.specs.Words.{first_of};
ghost use Rattle.rules.specs.Structures.{layout_of, structure_value_wrong, depth_wrong, colour_wrong, single, is_nan, at_most};
ghost use Rattle.rules.specs.Structures.{values_of};

mod blend;

use blend::first_entry;
use rules::{Kind, Reading};
use words::dwords::dword;

// The sign of a value, the highest of its bits.
const SIGN: u32 = 0x8000_0000;

// Whether the bits are a NaN's: without the sign they are above an infinity's.
fn is_nan(bits: u32) -> bool
    ensures { result ≡ is_nan bits }
{
    bits & 0x7FFF_FFFF > 0x7F80_0000
}

// Dword k of a structure as a value, where it is one.
fn value(d: &[u32], k: usize) -> f32
    requires { is_nan (get_or d.now k 0) ≡ false }
    ensures { result ≡ single (get_or d.now k 0) }
{
    f32::from_bits(dword(d, k))
}

// The place of a value among all that are no NaN, by its bits: both zeros have the middle one, and a magnitude counts up from
// there, or down if it has a sign.
fn rank(bits: u32) -> u32
    ensures { result ≡ cond (leb (2 ^ 31) bits) (2 ^ 32 - bits) (2 ^ 31 + bits) }
{
    if bits < SIGN {
        SIGN + bits
    } else {
        SIGN - (bits - SIGN)
    }
}

// Whether one value is at most another, by their bits alone. Bits that are the same need no rank.
fn at_most_by_bits(minimum: u32, maximum: u32) -> bool
    requires minimum_value { is_nan minimum ≡ false }
    requires maximum_value { is_nan maximum ≡ false }
    ensures { result ≡ at_most minimum maximum }
{
    minimum == maximum || rank(minimum) <= rank(maximum)
}

// Whether one value is at most another, as floats. A processor that was told to take denormals for zeros finds floats equal that
// are not, and none below another that is not below it. So "below" is believed, and else the bits decide, which know no such mode.
fn at_most(minimum: u32, maximum: u32) -> bool
    requires minimum_value { is_nan minimum ≡ false }
    requires maximum_value { is_nan maximum ≡ false }
    ensures { result ≡ at_most minimum maximum }
{
    let low = f32::from_bits(minimum);
    let high = f32::from_bits(maximum);
    low < high || at_most_by_bits(minimum, maximum)
}

// The first of two depths that is a NaN; else the maximum, if it is below the minimum.
#[tactic(auto, unfolding(rules::specs::Words::first_from, rules::specs::Structures::depth_wrong))]
fn first_depth(minimum: u32, maximum: u32) -> Option<usize>
    ensures { result ≡ first_of (depth_wrong (minimum ∷ maximum ∷ [])) 2 }
{
    if is_nan(minimum) {
        return Some(0);
    }
    if is_nan(maximum) {
        return Some(1);
    }
    if at_most(minimum, maximum) {
        None
    } else {
        Some(1)
    }
}

// The first NaN of a blend constant. A `for`, here and in `blend`, for speed: with `find` `bench/draft` has topologies at 102,576 (98,479 so).
fn first_colour(d: &[u32]) -> Option<usize>
    ensures { result ≡ first_of (colour_wrong d.now) 6 }
{
    for k in 2..6 {
        if is_nan(dword(d, k)) {
            return Some(k);
        }
    }
    None
}

// The first dword that breaks a value rule.
#[tactic(auto, unfolding(rules::specs::Structures::structure_value_wrong, rules::specs::Structures::layout_of))]
pub fn first_value(kind: Kind, d: &[u32]) -> Option<usize>
    ensures { result ≡ first_of (structure_value_wrong kind d.now) (layout_of kind).dwords }
{
    match kind {
        Kind::Viewport => first_depth(dword(d, 0), dword(d, 1)),
        Kind::ColourCalc => first_colour(d),
        Kind::Blend => first_entry(d),
    }
}

// The values of a structure that breaks no value rule.
pub fn values(kind: Kind, d: &[u32]) -> Reading
    requires { first_of (structure_value_wrong kind d.now) (layout_of kind).dwords ≡ None }
    ensures { result ≡ values_of kind d.now }
{
    match kind {
        Kind::Viewport => Reading::Depths(value(d, 0), value(d, 1)),
        Kind::ColourCalc => Reading::Colour(value(d, 2), value(d, 3), value(d, 4), value(d, 5)),
        Kind::Blend => Reading::Blending,
    }
}
