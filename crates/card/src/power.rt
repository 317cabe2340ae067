ghost use Rattle.std.specs.Prelude.{◌≡◌};
ghost use Rattle.rules.specs.Chip.{busy, fit, blank_buffer, with_buffer};
ghost use Rattle.card.specs.View.{view, with_passing, row_0_loaded};

use crate::card::Card;
use arrays::array::{Array, PAGE};
use parts::rows::Rows;

impl<M: Array, O: Array> Card<M, O> {
    // Is the main array not empty, and has the OTP array 1 block of 16 pages?
    pub(crate) fn is_fit(&self) -> bool
        ensures { result ≡ fit (view M.meaning O.meaning self.now).lasting }
    {
        self.main.blocks() != 0 && self.otp.blocks() == 1 && self.otp.pages() == 16
    }

    // BUSY: does an operation wait for its last step?
    pub(crate) fn is_busy(&self) -> bool
        ensures { result ≡ busy self.now.pending }
    {
        self.pending.is_some()
    }

    // The rows of the main array.
    pub(crate) fn rows(&self) -> Rows
        ensures blocks { result.blocks ≡ (M.meaning self.now.main.array).blocks }
        ensures pages { result.pages ≡ (M.meaning self.now.main.array).pages }
    {
        Rows {
            blocks: self.main.blocks(),
            pages: self.main.pages(),
        }
    }

    pub(crate) fn blank_buffer(&mut self)
        ensures { view M.meaning O.meaning self.new ≡ with_passing (with_buffer blank_buffer) (view M.meaning O.meaning self.old) }
    {
        self.buffer = [0xff; PAGE];
    }

    // Row 0 goes into the page buffer, or FFh throughout on an unfit card.
    pub(crate) fn load_row_0(&mut self)
        ensures { view M.meaning O.meaning self.new ≡ row_0_loaded (view M.meaning O.meaning self.old) }
    {
        self.blank_buffer();
        if self.is_fit() {
            let _ = self.main.read(0, 0, &mut self.buffer);
        }
    }
}
