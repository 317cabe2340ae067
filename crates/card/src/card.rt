use arrays::array::PAGE;
use linked::linked::Linked;
use rules::flags::Flags;
use rules::locks::Locks;
use rules::operation::Pending;
use rules::sr1::Sr1;

// A store card over a main array, which stands under its links, and an OTP array. No model, but `view`: a `Chip` holds its arrays as functions.
#[derive(Drop)]
pub struct Card<M, O> {
    pub(crate) main: Linked<M>,
    pub(crate) otp: O,
    pub(crate) locks: Locks,
    pub(crate) sr1: Sr1,
    pub(crate) flags: Flags,
    pub(crate) buffer: [u8; PAGE],
    // what waits for its last step; a card that is idle has none
    pub(crate) pending: Option<Pending>,
}
