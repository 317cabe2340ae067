ghost use Rattle.std.specs.Prelude.{◌≡◌, Some};
ghost use Rattle.arrays.specs.Words.{error_word};

use std::error::Error;
use std::fmt;

// Why an array did not carry out a call.
#[derive(Clone, Copy, PartialEq, Eq, Debug)]
pub enum ArrayError {
    // the block's life is 0, so nothing was programmed or erased
    Worn,
    // the block or page does not exist, or the bytes are not a page long
    Absent,
}

impl ArrayError {
    // The word for it.
    pub fn as_str(self) -> &'static str
        ensures { result.now ≡ error_word self }
    {
        match self {
            ArrayError::Worn => "worn",
            ArrayError::Absent => "absent",
        }
    }
}

impl fmt::Display for ArrayError {
    ghost output = { λ error. Some (error_word error) };

    fn fmt<W: fmt::Write>(&self, f: &mut fmt::Formatter<W>) -> fmt::Result {
        f.write_str(self.as_str())
    }
}

impl Error for ArrayError {}
