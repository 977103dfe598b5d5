// Where two lists of answers differ.
ghost use Rattle.answers.specs.Answers.{answer_of};
ghost use Rattle.answers.specs.declared.answer.Answer.{Answer};
ghost use Rattle.std.specs.Prelude.{◌≡◌, ◌≢◌, ◌<◌, ℕ, length, slice_index_or, MatchOption};

use answers::answer::Answer;
use answers::same::same;

pub(crate) fn first_difference(one: &[Answer], other: &[Answer]) -> Option<usize>
    requires { length one.now ≡ length other.now }
    ensures { (d : Answer) → MatchOption result ((k : ℕ) → k < length one.now → answer_of (slice_index_or one.now k d) ≡ answer_of (slice_index_or other.now k d)) (λ i. (i < length one.now) × ((k : ℕ) → k < i → answer_of (slice_index_or one.now k d) ≡ answer_of (slice_index_or other.now k d)) × (answer_of (slice_index_or one.now i d) ≢ answer_of (slice_index_or other.now i d))) }
{
    one.iter()
        .zip(other)
        .position(|(one, other)| !same(one, other))
}
