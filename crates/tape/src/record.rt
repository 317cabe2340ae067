// The most bytes that a transaction sends.
pub const MOST_SENT: usize = 64;

// The most bytes that its area has.
pub const LONGEST_AREA: usize = 64;

// What a line asks for.
#[derive(Clone, Copy)]
pub enum Record<'a> {
    Transaction(Transaction<'a>),
    Step,
    Power,
}

// A transaction, with /WP low or high. The sent bytes are given by their digits, which stand in the line.
#[derive(Clone, Copy)]
pub struct Transaction<'a> {
    pub low: bool,
    pub area_length: usize,
    pub digits: &'a [u8],
}
