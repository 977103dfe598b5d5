// Whether two answers are the same: by what they mean, so a denial goes by its number.
ghost use Rattle.answers.specs.Answers.{answer_of};
ghost use Rattle.std.specs.Prelude.{◌≡◌, Decides};

use crate::answer::Answer;

// By variant: tried as one `one == other`, the proof didn't close.
#[tactic(auto, using(crate::proofs::Told::told_apart))]
pub fn same(one: &Answer, other: &Answer) -> bool
    ensures { Decides result (answer_of one.now ≡ answer_of other.now) }
{
    match (one, other) {
        (Answer::Step(one), Answer::Step(other)) => one == other,
        (Answer::Run(one), Answer::Run(other)) => one == other,
        (Answer::Reset, Answer::Reset) => true,
        (Answer::Look(one), Answer::Look(other)) => one == other,
        _ => false,
    }
}
