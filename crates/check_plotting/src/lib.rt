// Tests of what cardrun prints of an image, on images that end in each way.
#![tactic(auto)]

#[cfg(test)]
mod plots;
