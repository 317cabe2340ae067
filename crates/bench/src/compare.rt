ghost use Rattle.std.specs.Prelude.{◌≡◌, ℕ, Bool};
ghost use Rattle.bench.specs.Compared.{equal, risen, places_where};

// What is asked of the bytes at one place of two pages, an older and a newer one.
pub trait Test {
    // The test, as a function of both bytes.
    ghost test: { ℕ → ℕ → Bool };

    fn holds(old: u8, new: u8) -> bool
        ensures { result ≡ test old new };

    // In how many places of both pages it holds.
    final fn count(old: &[u8], new: &[u8]) -> usize
        ensures { result ≡ places_where test old.now new.now }
    {
        let both = old.len().min(new.len());
        let mut count = 0;
        // By place, as a sum that is made for many places at once; a chain through `filter` branches at each.
        for (i, old) in old[..both].iter().enumerate() {
            if Self::holds(*old, new[i]) {
                count += 1;
            }
        }
        count
    }
}

// They are equal.
#[derive(Clone, Copy)]
pub struct Equal;

impl Test for Equal {
    ghost test = { equal };

    fn holds(old: u8, new: u8) -> bool {
        old == new
    }
}

// A bit that was 0 is 1.
#[derive(Clone, Copy)]
pub struct Risen;

impl Test for Risen {
    ghost test = { risen };

    fn holds(old: u8, new: u8) -> bool {
        old & new != new
    }
}
