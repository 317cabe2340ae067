ghost use Rattle.std.specs.Prelude.{◌≡◌};
ghost use Rattle.bench.specs.Words.{word_of};

use arrays::error::ArrayError;

// The word for what an array answered.
pub fn word(answer: Result<(), ArrayError>) -> &'static str
    ensures { result.now ≡ word_of answer }
{
    match answer {
        Ok(()) => "done",
        Err(error) => error.as_str(),
    }
}
