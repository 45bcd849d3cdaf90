// The ledger: what a bank's calls come to, told by the calls alone (specs/), and the laws of whole runs.
#![tactic(auto)]

ghost use Rattle.std.specs.Prelude.{◌≡◌, Some};
ghost use Rattle.ledger.specs.declared.Answer.TheVariants.{Done, Word};
ghost use Rattle.ledger.specs.Answering.{AnswerTo, answer_text};

use fault::fault::Fault;
use std::fmt;

// What a call to a bank is answered. It is no `Result`: a round gives a call that is not allowed a number of its own.
#[derive(Clone, Copy, PartialEq, Eq, Debug)]
pub enum Answer {
    // It is done.
    Done,
    // The word that was asked for.
    Word(u16),
    Refused(Fault),
    // The drawer does not allow it: a seat while the drawer is closed, or a get, post, release or mend while it is open.
    NotAllowed,
}

impl From<()> for Answer {
    ghost from_gives = { λ _ r. r ≡ Done };

    fn from(_value: ()) -> Answer {
        Answer::Done
    }
}

impl From<u16> for Answer {
    ghost from_gives = { λ x r. r ≡ Word x };

    fn from(value: u16) -> Answer {
        Answer::Word(value)
    }
}

// What a call came to becomes its answer, whichever layer's fault refused it.
impl<T: Into<Answer>, E: Into<Fault>> From<Result<T, E>> for Answer {
    ghost from_gives = { AnswerTo T.Into.converts E.Into.converts };

    fn from(outcome: Result<T, E>) -> Answer {
        match outcome {
            Ok(value) => value.into(),
            Err(fault) => Answer::Refused(fault.into()),
        }
    }
}

// As in `word 7`, `no b 7 16`.
impl fmt::Display for Answer {
    ghost output = { λ x. Some (answer_text x) };

    fn fmt<W: fmt::Write>(&self, f: &mut fmt::Formatter<W>) -> fmt::Result {
        match self {
            Answer::Done => write!(f, "ok"),
            Answer::Word(word) => write!(f, "word {word}"),
            Answer::Refused(fault) => write!(f, "no {fault}"),
            Answer::NotAllowed => write!(f, "not allowed"),
        }
    }
}
