ghost use Rattle.std.specs.Prelude.{◌≡◌, ℕ, true, not, position};
ghost use Rattle.links.specs.Links.{is_used, sound, outside, may_swap, retire, place, swapped};
ghost use Rattle.links.specs.LinkLaws.{Turned};

use crate::entry::Entry;

// Why a swap may not be done, in the order in which the reasons are tried.
#[derive(Clone, Copy, PartialEq, Eq, Debug)]
pub enum SwapError {
    // an address is not among the blocks, or the two are the same
    Outside,
    // the second address is in a live link, or the first one second in one
    Linked,
    // no entry is unused
    Full,
}

// Is an address of a swap not below `n`, or are the two the same? They stay two numbers, as a frame sends them; `n` is the array's and no part of a table.
pub fn is_outside(n: usize, first: u16, second: u16) -> bool
    ensures { result ≡ outside n first second }
{
    usize::from(first) >= n || usize::from(second) >= n || first == second
}

// Retires the live link whose first address this is.
fn retire_link(entries: &mut [Entry], first: u16)
    ensures { entries.new ≡ retire first entries.old }
{
    for e in entries.iter_mut() {
        *e = e.retired_if(first);
    }
}

// Where a new link is placed.
fn first_unused(entries: &[Entry]) -> Option<usize>
    ensures { result ≡ position (λ e. not (is_used e)) entries.now }
{
    entries.iter().position(|e| !e.is_used())
}

// Writes a live link into the first unused entry.
#[tactic(auto, using(crate::proofs::Placing::place_at, crate::proofs::Placing::place_full))]
fn place_link(entries: &mut [Entry], first: u16, second: u16)
    ensures { entries.new ≡ place first second entries.old }
{
    if let Some(i) = first_unused(entries) {
        entries[i] = Entry::Live { first, second };
    }
}

// Does what a finished swap does.
pub(crate) fn swap_among(entries: &mut [Entry], first: u16, second: u16)
    ensures after { entries.new ≡ swapped first second entries.old }

    // A swap that may be done leaves a table, and turns the addresses that it should.
    ensures sound { (n : ℕ) → sound entries.old ≡ true → may_swap n first second entries.old ≡ true → sound entries.new ≡ true }
    ensures turned { (n : ℕ) → sound entries.old ≡ true → may_swap n first second entries.old ≡ true → Turned n first second entries.old entries.new }
{
    retire_link(entries, first);
    place_link(entries, first, second);
}
