ghost use Rattle.std.specs.Prelude.{◌≡◌, length};
ghost use Rattle.arrays.specs.Store.{Store, Shape, present, has_block, lives, read_answer, write_answer, area_after, after_program, after_erase};

use crate::error::ArrayError;

// The bytes of a page.
pub const PAGE: usize = 2112;

// The five calls of an array; block and page stay two numbers, since erase names a block alone. A kind gives its meaning, and shows what each call answers and leaves.
pub trait Array {
    // N, P, the pages and the lives, as a value
    ghost meaning: { Self → Store };

    // What program and erase leave as it was beside the meaning, as the name of a `&mut`, from which its owner learns what it holds.
    ghost kept: { Self → Self → Type 0 };

    // N. The clause `shape` says what every array is like.
    fn blocks(&self) -> usize
        ensures count { result ≡ (meaning self.now).blocks }
        ensures shape { Shape (meaning self.now) };

    // P
    fn pages(&self) -> usize
        ensures { result ≡ (meaning self.now).pages };

    // Copies a page into the area.
    fn read(&self, block: usize, page: usize, area: &mut [u8]) -> Result<(), ArrayError>
        ensures answer { result ≡ read_answer (present (meaning self.now) block page (length area.old)) }
        ensures area { area.new ≡ area_after (meaning self.now) block page area.old };

    // Turns each byte of the page into itself AND the byte at its place.
    fn program(&mut self, block: usize, page: usize, bytes: &[u8]) -> Result<(), ArrayError>
        ensures answer { result ≡ write_answer (present (meaning self.old) block page (length bytes.now)) (lives (meaning self.old) block) }
        ensures after { meaning self.new ≡ after_program (meaning self.old) block page bytes.now }
        ensures kept { kept self.old self.new };

    // Sets every byte of the block to FFh and lowers its life by 1.
    fn erase(&mut self, block: usize) -> Result<(), ArrayError>
        ensures answer { result ≡ write_answer (has_block (meaning self.old) block) (lives (meaning self.old) block) }
        ensures after { meaning self.new ≡ after_erase (meaning self.old) block }
        ensures kept { kept self.old self.new };
}
