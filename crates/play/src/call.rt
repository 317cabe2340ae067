ghost use Rattle.std.specs.Prelude.{◌≡◌};
ghost use Rattle.play.specs.Played.{sent_answer, number_of, driven_of};

use rules::refusal::Refusal;

// A call of a card, as data, so that contracts hold of lists of them: a transaction with its sent bytes and whether /WP is low, a step, or a power cycle.
#[derive(Clone, Copy)]
pub enum Call<'a> {
    Transaction { sent: &'a [u8], low: bool },
    Step,
    PowerCycle,
}

// What a call answers. No `Result` inside: its tag beside that of the enum would make each entry of a log half as long again.
#[derive(Clone, Copy, PartialEq, Eq, Debug)]
pub enum Answer {
    // a taken transaction: the count of driven bytes
    Driven(usize),
    // a refused one: why
    Refused(Refusal),
    // a step: the steps left
    Left(u8),
    // a power cycle
    Powered,
}

impl From<Result<usize, Refusal>> for Answer {
    ghost from_gives = { λ sent answer. answer ≡ sent_answer sent };

    fn from(sent: Result<usize, Refusal>) -> Answer {
        match sent {
            Ok(driven) => Answer::Driven(driven),
            Err(refusal) => Answer::Refused(refusal),
        }
    }
}

impl Answer {
    // The outcome's number, the steps left, or 0.
    pub fn number(self) -> u8
        ensures { result ≡ number_of self }
    {
        match self {
            Answer::Driven(_) | Answer::Powered => 0,
            Answer::Refused(refusal) => refusal.number(),
            Answer::Left(left) => left,
        }
    }

    // The count of driven bytes, 0 where nothing is driven.
    pub fn driven(self) -> usize
        ensures { result ≡ driven_of self }
    {
        match self {
            Answer::Driven(driven) => driven,
            Answer::Refused(_) | Answer::Left(_) | Answer::Powered => 0,
        }
    }
}
