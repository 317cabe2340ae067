// One thing that a deed does to a card. Data and no closure, so that contracts list what is sent.
#[derive(Clone, Copy)]
pub enum Act<'a> {
    // a transaction with no area
    Send(&'a [u8]),
    // a transaction with the area of the deed
    Read(&'a [u8]),
    // steps until the card is idle
    Settle,
}
