// Rows of groups: the search through all groups of a command, whatever a row asks of one of them.
ghost use Rattle.std.specs.Prelude.{◌≡◌, ℕ, ◌+◌, ◌-◌, ◌<◌, length};
ghost use Rattle.rules.specs.declared.Level.TheVariants.{First};
ghost use Rattle.rules.specs.declared.Reason.TheVariants.{BitNotAllowed, ValueBroken};
ghost use Rattle.rules.specs.declared.Windows.{Windows};
ghost use Rattle.rules.specs.Masks.{bit_wrong};
ghost use Rattle.looks.specs.Looks.{content_of};
ghost use Rattle.plain_shared.specs.Plain.{as_number, coded, first_by, first_coded, clean_from, Groups, GroupAt, HeaderRight};

use crate::wrong::Wrong;
use rules::Reason;
use rules::Reason::{BitNotAllowed, RangeOutside, ValueBroken};

// What a row asks of a group, and of how many dwords it is.
pub trait Group {
    ghost SIZE: { ℕ };

    ghost of_row: { ℕ };

    ghost windows: { Self → Windows };

    const SIZE: usize;

    // Whether nothing is wrong with the group at k.
    fn good(&self, d: &[u32], k: usize) -> bool
        requires { GroupAt SIZE d.now k }
        ensures { result ≡ clean_from (windows self.now) of_row d.now k SIZE };

    // What the check for this reason says of the group at k. 12 is asked once no 10 is found.
    fn wrong(&self, reason: Reason, d: &[u32], k: usize) -> Result<(), Wrong>
        requires there { GroupAt SIZE d.now k }
        requires bits_pass { reason ≡ ValueBroken → first_coded BitNotAllowed (bit_wrong of_row d.now) k SIZE ≡ 0 }
        ensures { as_number result ≡ first_by (windows self.now) of_row d.now reason k SIZE };

    ghost some: { 0 < SIZE };
}

// Whether nothing is wrong with any group. Counted by hand for speed: with `step_by` `bench/draft` has no-ops at 127,171 (118,978 so) and topologies at 102,576
// (94,385); with `step_by` and `all` vertex buffers at 40,515 (34,573) and register pairs at 34,356 (28,433).
fn all_good<G: Group>(group: &G, d: &[u32]) -> bool
    requires { Groups G.SIZE d.now }
    ensures { result ≡ clean_from (G.windows group.now) G.of_row d.now 1 (length d.now - 1) }
{
    let mut k = 1;
    while k < d.len() {
        if !group.good(d, k) {
            return false;
        }
        k += G::SIZE;
    }
    true
}

// The first that the check for this reason finds in all groups.
fn first_of<G: Group>(group: &G, reason: Reason, d: &[u32]) -> Result<(), Wrong>
    requires whole { Groups G.SIZE d.now }
    requires bits_pass { reason ≡ ValueBroken → first_coded BitNotAllowed (bit_wrong G.of_row d.now) 1 (length d.now - 1) ≡ 0 }
    ensures { as_number result ≡ first_by (G.windows group.now) G.of_row d.now reason 1 (length d.now - 1) }
{
    for k in (1..d.len()).step_by(G::SIZE) {
        group.wrong(reason, d, k)?;
    }
    Ok(())
}

// All groups: most are in order, and else the first 10 goes before the first 12, and that before the first 13, wherever they stand.
pub fn groups_checked<G: Group>(group: &G, d: &[u32]) -> Result<(), Wrong>
    requires { (Groups G.SIZE d.now) × HeaderRight (G.windows group.now) G.of_row d.now First }
    ensures { as_number result ≡ coded (content_of (G.windows group.now) G.of_row d.now 0 First) }
{
    if all_good(group, d) {
        return Ok(());
    }
    first_of(group, BitNotAllowed, d)?;
    first_of(group, ValueBroken, d)?;
    first_of(group, RangeOutside, d)
}
