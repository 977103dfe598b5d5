// Tests of boards, plugs, the window and the map of an image, on examples.
#![tactic(auto)]

#[cfg(test)]
mod boards;
#[cfg(test)]
mod lending;
#[cfg(test)]
mod map;
#[cfg(test)]
mod piles;
#[cfg(test)]
mod plugs_made;
#[cfg(test)]
mod windows;
