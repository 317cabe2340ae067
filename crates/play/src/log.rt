ghost use Rattle.std.specs.Prelude.{◌≡◌};
ghost use Rattle.play.specs.declared.call.Answer.{Answer};
ghost use Rattle.play.specs.Played.{number_of};

use crate::call::Answer;

// What a log keeps of each answer: all of it, or its number alone.
pub trait Entry {
    ghost kept: { Answer → Self };

    fn keep(answer: Answer) -> Self
        ensures { result ≡ kept answer };
}

impl Entry for Answer {
    ghost kept = { λ answer. answer };

    fn keep(answer: Answer) -> Answer {
        answer
    }
}

impl Entry for u8 {
    ghost kept = { number_of };

    fn keep(answer: Answer) -> u8 {
        answer.number()
    }
}
