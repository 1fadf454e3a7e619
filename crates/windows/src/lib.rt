// The windows of a capture: whether they are sound, which of them hold a range of bytes, and which holds a structure.
// Addresses and lengths are any 64-bit numbers, so no end of a window is ever formed: distances are compared.
// Tests are joined by `|` and `&`: none of them can fail, so there is nothing to branch around.
#![tactic(auto)]

ghost use Rattle.std.specs.Prelude.{◌≡◌, ◌+◌, ◌≤◌, ltb, length, take, drop};
ghost use Rattle.rules.specs.declared.Within.TheVariants.{AnyWindow};
ghost use Rattle.rules.specs.Words.{some, some_two};
ghost use Rattle.rules.specs.Windows.{lent, listed, end, window_limit, counts_wrong, unaligned, ends_too_high, share_byte, window_fault};
ghost use Rattle.rules.specs.Windows.{fits, holds_dwords, held_at, part_of};
ghost use Rattle.rules.specs.Addresses.{access_wrong};
ghost use Rattle.windows.specs.Parts.{WithinItsWindow};

use rules::{Access, Fault, Held, Reason, Window, Windows, Within};

// The most dwords that the batch or the state may have.
const WINDOW_LIMIT: usize = 65536;

// What every window's address is a multiple of.
const PAGE_BYTES: u64 = 4096;

// The address at or below which every window ends.
const ADDRESS_LIMIT: u64 = 0x1_0000_0000_0000;

// The most dwords whose bytes 64 bits can count.
const COUNTED_DWORDS: u64 = 0x3FFF_FFFF_FFFF_FFFF;

#[tactic(auto, unfolding(rules::specs::Windows::counts_wrong))]
fn counts_wrong(batch: usize, state: usize) -> bool
    ensures { result ≡ counts_wrong window_limit batch state }
{
    (batch == 0) | ((batch > WINDOW_LIMIT) | (state > WINDOW_LIMIT))
}

fn unaligned(w: Window) -> bool
    ensures { result ≡ unaligned w }
{
    w.at % PAGE_BYTES != 0
}

// Whether the address lies below the window's end.
fn below_end(address: u64, w: Window) -> bool
    ensures { result ≡ ltb address (end w) }
{
    let at = w.at;
    if address < at {
        return true;
    }
    address - at < w.bytes
}

fn ends_too_high(w: Window) -> bool
    ensures { result ≡ ends_too_high w }
{
    below_end(ADDRESS_LIMIT, w)
}

fn share_byte(v: Window, w: Window) -> bool
    ensures { result ≡ share_byte v w }
{
    ((v.bytes > 0) & (w.bytes > 0)) & (below_end(v.at, w) & below_end(w.at, v))
}

#[tactic(auto, unfolding(rules::specs::Words::some))]
fn some_unaligned(w: Windows) -> bool
    ensures { result ≡ some unaligned (listed w) }
{
    unaligned(w.batch) | (unaligned(w.state) | unaligned(w.scratch))
}

#[tactic(auto, unfolding(rules::specs::Words::some))]
fn some_too_high(w: Windows) -> bool
    ensures { result ≡ some ends_too_high (listed w) }
{
    ends_too_high(w.batch) | (ends_too_high(w.state) | ends_too_high(w.scratch))
}

#[tactic(auto, unfolding(rules::specs::Words::some, rules::specs::Words::some_two))]
fn some_share(w: Windows) -> bool
    ensures { result ≡ some_two share_byte (listed w) }
{
    (share_byte(w.batch, w.state) | share_byte(w.batch, w.scratch)) | share_byte(w.state, w.scratch)
}

// Whether the windows are as document 01 wants them: its numbers 1 to 4, in that order. These refusals have no place of their own.
#[tactic(auto, using(crate::proofs::Sounding::in_order_lem))]
pub fn sound(batch_count: usize, state_count: usize, w: Windows) -> Result<(), Fault>
    ensures { result ≡ window_fault (record { batch = batch_count; state = state_count; windows = w }) }
{
    if counts_wrong(batch_count, state_count) {
        return Err(Fault::in_batch(Reason::WrongCounts, 0));
    }
    if some_unaligned(w) {
        return Err(Fault::in_batch(Reason::AddressUnaligned, 0));
    }
    if some_too_high(w) {
        return Err(Fault::in_batch(Reason::EndsTooHigh, 0));
    }
    if some_share(w) {
        return Err(Fault::in_batch(Reason::WindowsShare, 0));
    }
    Ok(())
}

// Whether all the bytes lie in some window. Left at the first that holds them, since each test has several ways out. Scratch is asked first: it
// is where most ranges lie.
#[tactic(auto, unfolding(rules::specs::Words::some, rules::specs::Windows::fits, rules::specs::Windows::windows_within))]
pub fn anywhere(w: Windows, address: u64, bytes: u64) -> bool
    ensures { result ≡ fits w AnyWindow address bytes }
{
    words::holds(w.scratch, address, bytes)
        || words::holds(w.batch, address, bytes)
        || words::holds(w.state, address, bytes)
}

// Whether all the bytes lie in one of the windows that the rule names.
#[tactic(auto, unfolding(rules::specs::Words::some, rules::specs::Windows::fits, rules::specs::Windows::windows_within))]
fn fits(w: Windows, allowed: Within, address: u64, bytes: u64) -> bool
    ensures { result ≡ fits w allowed address bytes }
{
    match allowed {
        Within::BatchOnly => words::holds(w.batch, address, bytes),
        Within::ScratchOnly => words::holds(w.scratch, address, bytes),
        Within::AnyWindow => anywhere(w, address, bytes),
    }
}

// Whether a range that is used does not fit.
pub fn access_wrong(w: Windows, address: u64, access: Access) -> bool
    ensures { result ≡ access_wrong w address access }
{
    match access {
        Access::Reaches(bytes, allowed) => !fits(w, allowed, address, bytes),
        Access::Unused | Access::NoRange => false,
    }
}

// Whether the window holds n dwords at the address as whole dwords of its own.
#[tactic(auto, unfolding(rules::specs::Windows::holds_dwords, rules::specs::Windows::holds))]
fn holds_dwords(w: Window, address: u64, n: usize) -> bool
    ensures { result ≡ holds_dwords w address n }
{
    let count = n as u64;
    if count > COUNTED_DWORDS {
        return false;
    }
    words::holds(w, address, 4 * count) && (address - w.at) % 4 == 0
}

// Which of the two lent windows holds n dwords at the address, and at which of its dwords they start. The batch is asked first.
#[tactic(auto, unfolding(rules::specs::Windows::held_at, rules::specs::Windows::holds_dwords, rules::specs::Windows::holds))]
fn held(batch: Window, state: Window, address: u64, n: usize) -> Option<Held>
    ensures { result ≡ held_at batch state address n }
{
    if holds_dwords(batch, address, n) {
        return Some(Held::InBatch(((address - batch.at) / 4) as usize));
    }
    if holds_dwords(state, address, n) {
        return Some(Held::InState(((address - state.at) / 4) as usize));
    }
    None
}

// Where lent words lie.
pub fn lent(at: u64, words: &[u32]) -> Window
    ensures { result ≡ lent at (length words.now) }
{
    Window {
        at,
        bytes: 4 * (words.len() as u64),
    }
}

// `held`, for windows that are lent.
pub fn held_in(
    batch: &[u32],
    batch_at: u64,
    state: &[u32],
    state_at: u64,
    address: u64,
    n: usize,
) -> Option<Held>
    ensures { result ≡ held_at (lent batch_at (length batch.now)) (lent state_at (length state.now)) address n }
{
    held(lent(batch_at, batch), lent(state_at, state), address, n)
}

fn part(words: &[u32], from: usize, n: usize) -> &[u32]
    requires { from + n ≤ length words.now }
    ensures { result.now ≡ take n (drop from words.now) }
{
    &words[from..from + n]
}

// The n dwords from where they are held on, as a part of the window that holds them; an empty part if neither does.
#[tactic(auto, unfolding(rules::specs::Windows::part_of))]
pub fn part_of<'a>(batch: &'a [u32], state: &'a [u32], held: Option<Held>, n: usize) -> &'a [u32]
    requires { WithinItsWindow (length batch.now) (length state.now) n held }
    ensures { result.now ≡ part_of batch.now state.now n held }
{
    match held {
        Some(Held::InBatch(i)) => part(batch, i, n),
        Some(Held::InState(i)) => part(state, i, n),
        None => &batch[..0],
    }
}

// The n dwords at the address, as a part of whichever of the two lent windows holds them; an empty part if neither does.
pub fn structure<'a>(
    batch: &'a [u32],
    batch_at: u64,
    state: &'a [u32],
    state_at: u64,
    address: u64,
    n: usize,
) -> &'a [u32]
    ensures { result.now ≡ part_of batch.now state.now n
        (held_at (lent batch_at (length batch.now)) (lent state_at (length state.now)) address n) }
{
    let held = held_in(batch, batch_at, state, state_at, address, n);
    part_of(batch, state, held, n)
}
