ghost use Rattle.std.specs.Prelude.{◌≡◌, ◌*◌, ◌%◌};
ghost use Rattle.rules.specs.Rows.{row_address, row_page, row_place};

use rules::operation::Place;

// The rows of a main array of N `blocks` of P `pages`.
#[derive(Clone, Copy, PartialEq, Eq, Debug)]
pub struct Rows {
    pub blocks: usize,
    pub pages: usize,
}

impl Rows {
    // The row modulo the number of rows, which may pass every number that a row can be.
    fn within(self, row: u16) -> usize
        ensures { result ≡ row % (self.blocks * self.pages) }
    {
        let row = usize::from(row);
        match self.blocks.checked_mul(self.pages) {
            Some(rows) => row.checked_rem(rows).unwrap_or(row),
            None => row,
        }
    }

    // The block address that a row names, or 0 where no block has a page.
    pub fn address(self, row: u16) -> usize
        ensures { result ≡ row_address self.blocks self.pages row }
    {
        self.within(row).checked_div(self.pages).unwrap_or(0)
    }

    // The page, within its block, that a row names.
    fn page(self, row: u16) -> usize
        ensures { result ≡ row_page self.blocks self.pages row }
    {
        let row = self.within(row);
        row.checked_rem(self.pages).unwrap_or(row)
    }

    // The page that a row names: with OTP-E 1 one of the OTP array.
    pub fn place(self, otp_e: bool, row: u16) -> Place
        ensures { result ≡ row_place otp_e self.blocks self.pages row }
    {
        if otp_e {
            Place::Otp {
                page: usize::from(row),
            }
        } else {
            Place::Main {
                address: self.address(row),
                page: self.page(row),
            }
        }
    }
}
