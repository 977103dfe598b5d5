// Tests of scripts: which are read and what they say, which line is named, and what the boards hold.
#![tactic(auto)]

#[cfg(test)]
mod boards;
#[cfg(test)]
mod scripts;
#[cfg(test)]
mod wrong_lines;
