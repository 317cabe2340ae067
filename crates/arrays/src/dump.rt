ghost use Rattle.std.specs.Prelude.{◌≡◌, MatchResult, true, false};
ghost use Rattle.arrays.specs.declared.error.ArrayError.TheVariants.{Absent};
ghost use Rattle.arrays.specs.Store.{Shape, has_block, present, read_answer};
ghost use Rattle.arrays.specs.Kinds.{in_dump, PageIn};

use crate::array::{Array, PAGE};
use crate::error::ArrayError;
use crate::layout::Layout;
use std::ops::Range;

// A dump array has the layout of a memory array, held for reading, and each of its lives counts as 0.
#[derive(Drop)]
pub struct Dump<'a> {
    pub(crate) bytes: &'a [u8],
    pub(crate) layout: Layout,
}

impl<'a> Dump<'a> {
    // The array of N `blocks` of P `pages` on these bytes: empty if they do not fit.
    pub fn new(bytes: &'a [u8], blocks: usize, pages: usize) -> Dump<'a>
        ensures bytes { result.bytes.now ≡ bytes.now }
        ensures sizes { (result.layout.blocks ≡ blocks) × (result.layout.pages ≡ pages) }
    {
        Dump {
            bytes,
            layout: Layout { blocks, pages },
        }
    }

    // N and P: 0 and 0 if they do not fit the bytes.
    #[tactic(auto, using(crate::proofs::Found::dump_blocks, crate::proofs::Found::dump_pages, crate::proofs::Shapes::dump_shape))]
    fn sizes(&self) -> Layout
        ensures blocks { result.blocks ≡ (in_dump self.now).blocks }
        ensures pages { result.pages ≡ (in_dump self.now).pages }
        ensures shape { Shape (in_dump self.now) }
    {
        self.layout.fitted(self.bytes)
    }

    // Does the block exist?
    pub(crate) fn find_block(&self, block: usize) -> Result<(), ArrayError>
        ensures { result ≡ read_answer (has_block (in_dump self.now) block) }
    {
        if block < self.sizes().blocks {
            Ok(())
        } else {
            Err(ArrayError::Absent)
        }
    }

    // Where the page lies, if it exists and `size` is a page's.
    pub(crate) fn find_page(
        &self,
        block: usize,
        page: usize,
        size: usize,
    ) -> Result<Range<usize>, ArrayError>
        ensures { MatchResult result (λ place. PageIn self.now block page size place) (λ error. (error ≡ Absent) × (present (in_dump self.now) block page size ≡ false)) }
    {
        let sizes = self.sizes();
        if block < sizes.blocks && page < sizes.pages && size == PAGE {
            Ok(self.layout.page_place(block, page))
        } else {
            Err(ArrayError::Absent)
        }
    }
}

impl Array for Dump<'_> {
    ghost meaning = { in_dump };

    ghost kept = { λ d e. e ≡ d };

    fn blocks(&self) -> usize {
        self.sizes().blocks
    }

    fn pages(&self) -> usize {
        self.sizes().pages
    }

    #[tactic(auto, using(crate::proofs::Calls::reads_page))]
    fn read(&self, block: usize, page: usize, area: &mut [u8]) -> Result<(), ArrayError> {
        let place = self.find_page(block, page, area.len())?;
        area.copy_from_slice(&self.bytes[place]);
        Ok(())
    }

    #[tactic(auto, using(crate::proofs::Found::dump_dead))]
    fn program(&mut self, block: usize, page: usize, bytes: &[u8]) -> Result<(), ArrayError> {
        self.find_page(block, page, bytes.len())?;
        Err(ArrayError::Worn)
    }

    #[tactic(auto, using(crate::proofs::Found::dump_dead))]
    fn erase(&mut self, block: usize) -> Result<(), ArrayError> {
        self.find_block(block)?;
        Err(ArrayError::Worn)
    }
}
