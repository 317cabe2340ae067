ghost use Rattle.std.specs.Prelude.{◌≡◌, length};
ghost use Rattle.arrays.specs.Store.{present, lives, read_answer, write_answer, area_after, after_program};
ghost use Rattle.bench.specs.Steps.{erase_times, erases_done};

use arrays::array::Array;
use arrays::error::ArrayError;

// Programs a page of any array and reads it back into the area.
pub fn program_and_read<A: Array>(
    array: &mut A,
    block: usize,
    page: usize,
    bytes: &[u8],
    area: &mut [u8],
) -> (Result<(), ArrayError>, Result<(), ArrayError>)
    ensures programmed { result.0 ≡ write_answer (present (A.Array.meaning array.old) block page (length bytes.now)) (lives (A.Array.meaning array.old) block) }
    ensures read { result.1 ≡ read_answer (present (after_program (A.Array.meaning array.old) block page bytes.now) block page (length area.old)) }
    ensures area { area.new ≡ area_after (after_program (A.Array.meaning array.old) block page bytes.now) block page area.old }
    ensures after { A.Array.meaning array.new ≡ after_program (A.Array.meaning array.old) block page bytes.now }
    ensures kept { A.Array.kept array.old array.new }
{
    let programmed = array.program(block, page, bytes);
    let read = array.read(block, page, area);
    (programmed, read)
}

// Erases a block of any array until it is worn, at most `most` times, and says how many erases were done.
#[tactic(auto, using(crate::proofs::Erases::one_more, crate::proofs::Erases::no_more))]
fn erase_up_to<A: Array>(array: &mut A, block: usize, most: u32) -> u32
    ensures count { result ≡ erases_done (A.Array.meaning array.old) block most }
    ensures after { A.Array.meaning array.new ≡ erase_times result (A.Array.meaning array.old) block }
{
    // A loop, since after a chain a proof knows nothing of what its closure did to the array.
    for done in 0..most {
        if array.erase(block).is_err() {
            return done;
        }
    }
    most
}

// The same with the largest number of erases that can be counted, which is the largest life of a memory array.
pub fn wear_out<A: Array>(array: &mut A, block: usize) -> u32
    ensures count { result ≡ erases_done (A.Array.meaning array.old) block 4294967295 }
    ensures after { A.Array.meaning array.new ≡ erase_times result (A.Array.meaning array.old) block }
{
    erase_up_to(array, block, u32::MAX)
}
