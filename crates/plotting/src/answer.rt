// The answer to the run, out of the answers to a log of that one line.
ghost use Rattle.answers.specs.Answers.{answer_of};
ghost use Rattle.plotting.specs.Plotting.{RanAlone};
ghost use Rattle.std.specs.Prelude.{map};

use answers::answer::Answer;
use card::ran::Ran;

// What a run came to, if it was a run and was not denied.
pub(crate) fn run_answer(answers: &[Answer]) -> Option<Ran>
    ensures { RanAlone result (map answer_of answers.now) }
{
    match answers {
        [Answer::Run(Ok(ran))] => Some(*ran),
        _ => None,
    }
}
