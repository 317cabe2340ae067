// What is asked for by a code alone.
#[derive(Clone, Copy, PartialEq, Eq, Debug)]
pub enum Simple {
    Reset,
    EnableWrite,
    DisableWrite,
    Identify,
    ListLinks,
}

// What is done at a row: the buffer is programmed into its page, its block is erased, or its page is fetched into the buffer.
#[derive(Clone, Copy, PartialEq, Eq, Debug)]
pub enum RowOperation {
    Program,
    Erase,
    Fetch,
}

// The number of a page in the array, as wide as it is sent.
pub type RowAddress = u16;

// An instruction with the values that were sent. A load borrows its data; with `refill` it sets all other bytes of the buffer to FFh.
#[derive(Clone, Copy, PartialEq, Eq, Debug)]
pub enum Instruction<'a> {
    Plain(Simple),
    ReadRegister {
        address: u8,
    },
    WriteRegister {
        address: u8,
        value: u8,
    },
    Swap {
        first: u16,
        second: u16,
    },
    AtRow {
        operation: RowOperation,
        row: RowAddress,
    },
    LoadBuffer {
        refill: bool,
        column: u16,
        data: &'a [u8],
    },
    ReadBuffer {
        column: u16,
    },
}
