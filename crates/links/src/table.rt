ghost use Rattle.std.specs.Prelude.{◌≡◌, ◌*◌, true, length, is_ok};
ghost use Rattle.links.specs.Links.{capacity, no_links, sound, partner, reach, used, full, linked, second, taken, may_swap, swap_answer, after_swap, table_bytes};
ghost use Rattle.links.specs.LinkLaws.{Paired, Turned};

use crate::entry::Entry;
use crate::swap::{SwapError, is_outside, swap_among};
use std::marker::Model;

// The number of entries of a table.
pub const ENTRIES: usize = 20;

// The number of its bytes: two words of two bytes an entry.
pub const TABLE_BYTES: usize = 4 * ENTRIES;

// A link table: unused entries come last, and no address is twice in live links. A contract sees its entries.
#[derive(Clone, Copy)]
pub struct Table {
    entries: [Entry; ENTRIES],
}

impl Model for Table {
    ghost use Rattle.std.specs.Prelude.{◌≡◌, List, length, true};
    ghost use Rattle.links.specs.declared.entry.Entry.{Entry};
    ghost use Rattle.links.specs.Links.{capacity, sound};

    ghost Value = { List Entry };

    ghost view = { λ table. table.entries };

    ghost invariant = { λ table. (length table.entries ≡ capacity) × (sound table.entries ≡ true) };

    ghost inverse = { λ es. record { entries = es } };
}

impl Table {
    // A table with no link.
    pub fn new() -> Table
        ensures { result ≡ no_links }
    {
        Table {
            entries: [Entry::Unused; ENTRIES],
        }
    }

    // The other address of the live link, wholly below `n`, that has the address: absent where the address reaches its own block.
    pub fn partner(&self, n: usize, address: usize) -> Option<usize>
        ensures { result ≡ partner n self.now address }
    {
        partner_among(&self.entries, n, address)
    }

    // The block of `n` that the address reaches.
    #[tactic(auto, using(crate::proofs::Reaching::paired))]
    pub fn reach(&self, n: usize, address: usize) -> usize
        ensures answer { result ≡ reach n self.now address }
        ensures paired { Paired n self.now }
    {
        let entries = &self.entries;
        partner_among(entries, n, address).unwrap_or(address)
    }

    // The number of used entries. The clauses `size` and `sound` say what every table is like.
    pub fn used(&self) -> usize
        ensures count { result ≡ used self.now }
        ensures size { length self.now ≡ capacity }
        ensures sound { sound self.now ≡ true }
    {
        count_used(&self.entries)
    }

    // Is no entry unused?
    pub fn is_full(&self) -> bool
        ensures { result ≡ full self.now }
    {
        all_used(&self.entries)
    }

    // Its bytes, entry by entry.
    pub fn bytes(&self) -> [u8; TABLE_BYTES]
        ensures { result ≡ table_bytes self.now }
    {
        let mut bytes = [0; TABLE_BYTES];
        write_bytes(&self.entries, &mut bytes);
        bytes
    }

    // Is the address one of a live link?
    fn is_linked(&self, address: u16) -> bool
        ensures { result ≡ linked address self.now }
    {
        self.entries.iter().any(|e| e.holds(address))
    }

    // Is the address the second one of a live link?
    fn is_second(&self, address: u16) -> bool
        ensures { result ≡ second address self.now }
    {
        self.entries.iter().any(|e| e.ends_at(address))
    }

    // Is the second address of a swap in a live link, or the first one second in one?
    pub fn is_taken(&self, first: u16, second: u16) -> bool
        ensures { result ≡ taken first second self.now }
    {
        self.is_linked(second) || self.is_second(first)
    }

    // May a swap be done, and why not?
    pub fn allows(&self, n: usize, first: u16, second: u16) -> Result<(), SwapError>
        ensures { result ≡ swap_answer n first second self.now }
    {
        if is_outside(n, first, second) {
            Err(SwapError::Outside)
        } else if self.is_taken(first, second) {
            Err(SwapError::Linked)
        } else if self.is_full() {
            Err(SwapError::Full)
        } else {
            Ok(())
        }
    }

    // Does what a finished swap does, if it may be done.
    pub fn swap(&mut self, n: usize, first: u16, second: u16) -> Result<(), SwapError>
        ensures answer { result ≡ swap_answer n first second self.old }
        ensures allowed { is_ok result ≡ may_swap n first second self.old }
        ensures after { self.new ≡ after_swap n first second self.old }
        ensures turned { is_ok result ≡ true → Turned n first second self.old self.new }
    {
        self.allows(n, first, second)?;
        swap_among(&mut self.entries, first, second);
        Ok(())
    }
}

// How many are used. A loop, since a chain through `filter` took three times as long.
fn count_used(entries: &[Entry]) -> usize
    ensures { result ≡ used entries.now }
{
    let mut count = 0;
    for e in entries {
        if e.is_used() {
            count += 1;
        }
    }
    count
}

// The other address of the first such link among the entries.
fn partner_among(entries: &[Entry], n: usize, address: usize) -> Option<usize>
    ensures { result ≡ partner n entries.now address }
{
    entries.iter().find_map(|e| e.other(n, address))
}

fn all_used(entries: &[Entry]) -> bool
    ensures { result ≡ full entries.now }
{
    entries.iter().all(|e| e.is_used())
}

// Writes the bytes of the entries over the area.
fn write_bytes(entries: &[Entry], area: &mut [u8])
    requires { length area.old ≡ 4 * length entries.now }
    ensures { area.new ≡ table_bytes entries.now }
{
    // A loop over places, since what is written through `chunks_exact_mut` is not known afterwards.
    for (i, e) in entries.iter().enumerate() {
        area[4 * i..4 * i + 4].copy_from_slice(&e.bytes());
    }
}
