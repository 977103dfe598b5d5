// What a denied making hands back: why, and what was given to make it of, as it was.
use crate::Denial;

#[derive(Debug, Drop)]
pub struct Unmade<T> {
    pub denial: Denial,
    pub given: T,
}
