ghost use Rattle.std.specs.Prelude.{◌≡◌, ◌<◌};
ghost use Rattle.arrays.specs.Store.{lifeless, blanked, with_life, renewed};
ghost use Rattle.arrays.specs.Kinds.{in_memory, in_dump, SamePlace, life_answer};

use crate::array::Array;
use crate::bytes::and_into;
use crate::dump::Dump;
use crate::error::ArrayError;
use crate::layout::{Layout, number_in};

// A memory array stands on writable bytes: N lives of four bytes each, high byte first, then the pages by block and page. No model: a `Store` holds functions.
#[derive(Drop)]
pub struct Memory<'a> {
    bytes: &'a mut [u8],
    layout: Layout,
}

impl<'a> Memory<'a> {
    // The array of N `blocks` of P `pages` on these bytes: empty if they do not fit.
    pub fn new(bytes: &'a mut [u8], blocks: usize, pages: usize) -> Memory<'a>
        ensures bytes { result.bytes.now ≡ bytes.old }
        ensures named { result.bytes.ghost_name ≡ bytes.entry.ghost_name }
        ensures sizes { (result.layout.blocks ≡ blocks) × (result.layout.pages ≡ pages) }
    {
        Memory {
            bytes,
            layout: Layout { blocks, pages },
        }
    }

    // Makes every block new: all its bytes FFh, and its life the given one.
    pub fn renew(&mut self, life: u32)
        ensures after { in_memory self.new ≡ renewed (in_memory self.old) (in_memory self.old).blocks life }
        ensures place { SamePlace self.old self.new }
    {
        for block in 0..self.blocks() {
            self.blank(block);
            self.set_life(block, life);
        }
    }

    // The same bytes as a dump array, which reads as this does.
    #[tactic(auto, using(crate::proofs::Found::dump_of))]
    fn dump(&self) -> Dump<'_>
        ensures meaning { in_dump result ≡ lifeless (in_memory self.now) }
        ensures bytes { result.bytes.now ≡ self.now.bytes.now }
        ensures layout { result.layout ≡ self.now.layout }
    {
        Dump {
            bytes: &self.bytes[..],
            layout: self.layout,
        }
    }

    // The life of a block that exists and is not worn.
    #[tactic(auto, using(crate::proofs::Found::memory_life))]
    fn life(&self, block: usize) -> Result<u32, ArrayError>
        ensures { result ≡ life_answer (in_memory self.now) block }
    {
        self.dump().find_block(block)?;
        let life = number_in(&self.bytes[self.layout.life_place(block)]);
        if life == 0 {
            return Err(ArrayError::Worn);
        }
        Ok(life)
    }

    // Sets every byte of the block to FFh.
    fn blank(&mut self, block: usize)
        requires { block < (in_memory self.old).blocks }
        ensures after { in_memory self.new ≡ blanked (in_memory self.old) block }
        ensures place { SamePlace self.old self.new }
    {
        let place = self.layout.block_place(block);
        self.bytes[place].fill(0xff);
    }

    // Writes the life of the block.
    fn set_life(&mut self, block: usize, life: u32)
        requires { block < (in_memory self.old).blocks }
        ensures after { in_memory self.new ≡ with_life (in_memory self.old) block life }
        ensures place { SamePlace self.old self.new }
    {
        let place = self.layout.life_place(block);
        self.bytes[place].copy_from_slice(&life.to_be_bytes());
    }
}

impl Array for Memory<'_> {
    ghost meaning = { in_memory };

    ghost kept = { SamePlace };

    #[tactic(auto, using(crate::proofs::Found::memory_shape))]
    fn blocks(&self) -> usize {
        self.dump().blocks()
    }

    fn pages(&self) -> usize {
        self.dump().pages()
    }

    fn read(&self, block: usize, page: usize, area: &mut [u8]) -> Result<(), ArrayError> {
        self.dump().read(block, page, area)
    }

    #[tactic(auto, using(crate::proofs::Calls::programs_page))]
    fn program(&mut self, block: usize, page: usize, bytes: &[u8]) -> Result<(), ArrayError> {
        let place = self.dump().find_page(block, page, bytes.len())?;
        self.life(block)?;
        and_into(&mut self.bytes[place], bytes);
        Ok(())
    }

    fn erase(&mut self, block: usize) -> Result<(), ArrayError> {
        let life = self.life(block)?;
        self.blank(block);
        self.set_life(block, life - 1);
        Ok(())
    }
}
