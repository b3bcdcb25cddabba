// Section 6: the number and the value of an answer, public and so functions.
ghost use Rattle.std.specs.Prelude.{◌≡◌};
ghost use Rattle.rules.specs.Answers.{number_of, value_of};

use rules::Answer;

// The variants of Refusal stand in the order of their numbers.
pub fn number_of(answer: Answer) -> u8
    ensures { result ≡ number_of answer }
{
    match answer {
        Ok(_) => 0,
        Err(refusal) => refusal as u8,
    }
}

pub fn value_of(answer: Answer) -> u16
    ensures { result ≡ value_of answer }
{
    answer.unwrap_or(0)
}
