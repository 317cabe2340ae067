ghost use Rattle.std.specs.Prelude.{◌≡◌, ℕ, ◌+◌, ◌*◌, ◌<◌, ◌≤◌, length as count, if◌then◌else◌, slice_index};
ghost use Rattle.arrays.specs.Store.{page_size};
ghost use Rattle.arrays.specs.Layout.{fits as fitting, at_life, at_page, at_block, number};

use crate::array::PAGE;
use std::ops::Range;

// The bytes of a block's life.
const LIFE: usize = 4;

const MOST_BLOCKS: usize = 1024;

const MOST_PAGES: usize = 64;

// N blocks of P pages, whose lives and then pages lie in bytes. Sizes that do not fit are a layout too, so each place asks for the bounds.
#[derive(Clone, Copy)]
pub(crate) struct Layout {
    pub(crate) blocks: usize,
    pub(crate) pages: usize,
}

impl Layout {
    // Do N, P and the length of the bytes fit?
    fn fits(self, length: usize) -> bool
        ensures { result ≡ fitting self.blocks self.pages length }
    {
        self.blocks.is_power_of_two()
            && self.blocks <= MOST_BLOCKS
            && self.pages.is_power_of_two()
            && self.pages <= MOST_PAGES
            && length == LIFE * self.blocks + PAGE * (self.blocks * self.pages)
    }

    // N and P of an array on these bytes, each of which is below 256: 0 and 0 if they do not fit.
    pub(crate) fn fitted(self, bytes: &[u8]) -> Layout
        ensures blocks { result.blocks ≡ (if fitting self.blocks self.pages (count bytes.now) then self.blocks else 0) }
        ensures pages { result.pages ≡ (if fitting self.blocks self.pages (count bytes.now) then self.pages else 0) }
        ensures bytes { (k : ℕ) → slice_index bytes.now k < 256 }
    {
        if self.fits(bytes.len()) {
            self
        } else {
            Layout {
                blocks: 0,
                pages: 0,
            }
        }
    }

    // Where the life of the block lies.
    pub(crate) fn life_place(self, block: usize) -> Range<usize>
        requires { (self.blocks ≤ 1024) × (block < self.blocks) }
        ensures start { result.start ≡ at_life block }
        ensures end { result.end ≡ at_life block + 4 }
    {
        let start = LIFE * block;
        start..start + LIFE
    }

    // Where the page lies.
    pub(crate) fn page_place(self, block: usize, page: usize) -> Range<usize>
        requires { (self.blocks ≤ 1024) × ((self.pages ≤ 64) × ((block < self.blocks) × (page < self.pages))) }
        ensures start { result.start ≡ at_page self.blocks self.pages block page }
        ensures end { result.end ≡ at_page self.blocks self.pages block page + page_size }
    {
        let start = LIFE * self.blocks + PAGE * (block * self.pages + page);
        start..start + PAGE
    }

    // Where the pages of the block lie.
    pub(crate) fn block_place(self, block: usize) -> Range<usize>
        requires { (self.blocks ≤ 1024) × ((self.pages ≤ 64) × (block < self.blocks)) }
        ensures start { result.start ≡ at_block self.blocks self.pages block }
        ensures end { result.end ≡ at_block self.blocks self.pages block + page_size * self.pages }
    {
        let start = LIFE * self.blocks + PAGE * (block * self.pages);
        start..start + PAGE * self.pages
    }
}

// Four bytes as a number, high byte first.
pub(crate) fn number_in(four: &[u8]) -> u32
    requires { count four.now ≡ 4 }
    ensures { result ≡ number four.now }
{
    u32::from_be_bytes(*four.first_chunk().unwrap())
}
