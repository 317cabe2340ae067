ghost use Rattle.std.specs.Prelude.{◌≡◌, true, length, is_ok};
ghost use Rattle.arrays.specs.Store.{Shape, present, has_block, lives, write_answer, after_program, after_erase};
ghost use Rattle.links.specs.Links.{may_swap, swap_answer, after_swap};
ghost use Rattle.links.specs.LinkLaws.{Turned};
ghost use Rattle.linked.specs.Shown.{block_count, showing, reached, Through};

use arrays::array::Array;
use arrays::error::ArrayError;
use links::swap::SwapError;
use links::table::Table;

// A linked array shows at each address the block of `array` that the address reaches.
#[derive(Drop)]
pub struct Linked<A> {
    array: A,
    pub table: Table,
}

impl<A: Array> Linked<A> {
    pub fn new(array: A, table: Table) -> Linked<A>
        ensures { (result.array ≡ array) × (result.table ≡ table) }
    {
        Linked { array, table }
    }

    // The array and the table, taken apart again.
    pub fn into_parts(self) -> (A, Table)
        ensures { (result.0 ≡ self.array) × (result.1 ≡ self.table) }
    {
        let Linked { array, table } = self;
        (array, table)
    }

    // May a swap be done, and why not?
    pub fn allows(&self, first: u16, second: u16) -> Result<(), SwapError>
        ensures { result ≡ swap_answer (block_count A.Array.meaning self.now) first second self.now.table }
    {
        let n = self.size();
        self.table.allows(n, first, second)
    }

    // Does what a finished swap does, if it may be done.
    pub fn swap(&mut self, first: u16, second: u16) -> Result<(), SwapError>
        ensures answer { result ≡ swap_answer (block_count A.Array.meaning self.old) first second self.old.table }
        ensures allowed { is_ok result ≡ may_swap (block_count A.Array.meaning self.old) first second self.old.table }
        ensures array { self.new.array ≡ self.old.array }
        ensures after { self.new.table ≡ after_swap (block_count A.Array.meaning self.old) first second self.old.table }
        ensures turned { is_ok result ≡ true → Turned (block_count A.Array.meaning self.old) first second self.old.table self.new.table }
    {
        let n = self.size();
        self.table.swap(n, first, second)
    }

    // N, the same as that of `array`.
    fn size(&self) -> usize
        ensures count { result ≡ block_count A.Array.meaning self.now }
        ensures shape { Shape (showing A.Array.meaning self.now) }
    {
        self.array.blocks()
    }

    // The block of `array` that the address reaches: a call there is what the call at the address should be.
    #[tactic(auto, using(crate::proofs::Showing::through))]
    fn reached(&self, address: usize) -> usize
        ensures block { result ≡ reached A.Array.meaning self.now address }
        ensures through { Through A.Array.meaning self.now.table self.now.array address result }
    {
        let n = self.size();
        self.table.reach(n, address)
    }
}

impl<A: Array> Array for Linked<A> {
    ghost meaning = { showing A.Array.meaning };

    ghost kept = { λ l k. A.Array.kept l.array k.array × (k.table ≡ l.table) };

    fn blocks(&self) -> usize {
        self.size()
    }

    fn pages(&self) -> usize {
        self.array.pages()
    }

    fn read(&self, block: usize, page: usize, area: &mut [u8]) -> Result<(), ArrayError> {
        let reached = self.reached(block);
        self.array.read(reached, page, area)
    }

    fn program(&mut self, block: usize, page: usize, bytes: &[u8]) -> Result<(), ArrayError>
        ensures answer { result ≡ write_answer (present (showing A.Array.meaning self.old) block page (length bytes.now)) (lives (showing A.Array.meaning self.old) block) }
        ensures after { showing A.Array.meaning self.new ≡ after_program (showing A.Array.meaning self.old) block page bytes.now }
        ensures kept { A.Array.kept self.old.array self.new.array × (self.new.table ≡ self.old.table) }
        ensures below { A.Array.meaning self.new.array ≡ after_program (A.Array.meaning self.old.array) (reached A.Array.meaning self.old block) page bytes.now }
    {
        let reached = self.reached(block);
        self.array.program(reached, page, bytes)
    }

    fn erase(&mut self, block: usize) -> Result<(), ArrayError>
        ensures answer { result ≡ write_answer (has_block (showing A.Array.meaning self.old) block) (lives (showing A.Array.meaning self.old) block) }
        ensures after { showing A.Array.meaning self.new ≡ after_erase (showing A.Array.meaning self.old) block }
        ensures kept { A.Array.kept self.old.array self.new.array × (self.new.table ≡ self.old.table) }
        ensures below { A.Array.meaning self.new.array ≡ after_erase (A.Array.meaning self.old.array) (reached A.Array.meaning self.old block) }
    {
        let reached = self.reached(block);
        self.array.erase(reached)
    }
}
