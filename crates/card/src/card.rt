// A card.
use machine::state::Machine;

#[derive(Drop)]
pub struct Card<M, P> {
    pub(crate) machine: Machine<M, P>,
}
