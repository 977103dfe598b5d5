// How many vectors of a source agree.
#[derive(Clone, Copy, Default)]
pub struct Tally {
    pub agree: u32,
    pub differ: u32,
}

impl Tally {
    pub fn count(&mut self, agrees: bool) {
        if agrees {
            self.agree = self.agree.saturating_add(1);
        } else {
            self.differ = self.differ.saturating_add(1);
        }
    }
}
