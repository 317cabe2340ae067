ghost use Rattle.std.specs.Prelude.{◌≡◌};
ghost use Rattle.links.specs.Links.{is_used, holds, ends, other, retired_if, word, entry_bytes};

// An entry of a link table.
#[derive(Clone, Copy, PartialEq, Eq, Debug)]
pub enum Entry {
    Unused,
    // each of the two addresses reaches the other's block
    Live { first: u16, second: u16 },
    // a link that was live: it exchanges nothing
    Retired { first: u16, second: u16 },
}

impl Entry {
    pub(crate) fn is_used(self) -> bool
        ensures { result ≡ is_used self }
    {
        !matches!(self, Entry::Unused)
    }

    // Is the address one of a live link?
    pub(crate) fn holds(self, address: u16) -> bool
        ensures { result ≡ holds address self }
    {
        matches!(self, Entry::Live { first, second } if address == first || address == second)
    }

    // Is the address the second one of a live link?
    pub(crate) fn ends_at(self, address: u16) -> bool
        ensures { result ≡ ends address self }
    {
        matches!(self, Entry::Live { second, .. } if address == second)
    }

    // The other address of a live link, wholly below `n`, that has the address.
    pub(crate) fn other(self, n: usize, address: usize) -> Option<usize>
        ensures { result ≡ other n self address }
    {
        let Entry::Live { first, second } = self else {
            return None;
        };
        let first = usize::from(first);
        let second = usize::from(second);
        if first >= n || second >= n {
            None
        } else if address == first {
            Some(second)
        } else if address == second {
            Some(first)
        } else {
            None
        }
    }

    // The entry as a swap of this first address leaves it.
    pub(crate) fn retired_if(self, address: u16) -> Entry
        ensures { result ≡ retired_if address self }
    {
        match self {
            Entry::Live { first, second } if first == address => Entry::Retired { first, second },
            entry => entry,
        }
    }

    // Its two words, high byte first. They are made as `u32`, since the sum with a `u16` can pass 16 bits.
    pub(crate) fn bytes(self) -> [u8; 4]
        ensures { result ≡ entry_bytes self }
    {
        let (first, second) = match self {
            Entry::Unused => (0, 0),
            Entry::Live { first, second } => (0x8000 + u32::from(first), u32::from(second)),
            Entry::Retired { first, second } => (0xc000 + u32::from(first), u32::from(second)),
        };
        let [a, b] = low_word(first);
        let [c, d] = low_word(second);
        [a, b, c, d]
    }
}

// The low 16 bits, high byte first.
fn low_word(number: u32) -> [u8; 2]
    ensures { result ≡ word number }
{
    let [_, _, high, low] = number.to_be_bytes();
    [high, low]
}
