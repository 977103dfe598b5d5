// A walk along one chain of a panel: each record with its number, the first one first.
ghost use Rattle.panel.specs.Walking.{left_to_walk};
ghost use Rattle.std.specs.Prelude.{◌≡◌, ◌∷◌, length, MatchOption};
ghost use Rattle.std.specs.Iterator.{at_most};

use crate::chain::Chain;
use crate::record::Record;

#[derive(Drop)]
pub struct Walk<'a> {
    pub(super) panel: &'a Chain,
    // the number of the record to come, 0 at the end
    pub(super) number: u16,
    // no more records than these are to come: `chain_state` alone doesn't say that next numbers come to an end
    pub(super) most: u16,
}

impl<'a> Iterator for Walk<'a> {
    type Item = (u16, Record);

    // None at the end, and from then on.
    ghost next_gives = { λ s r t. MatchOption r ((length (left_to_walk s) ≡ 0) × (length (left_to_walk t) ≡ 0)) (λ x. left_to_walk s ≡ x ∷ left_to_walk t) };

    ghost remaining = { λ s. at_most s.most };

    fn next(&mut self) -> Option<(u16, Record)> {
        if self.most == 0 {
            return None;
        }
        let number = self.number;
        let record = self.panel.record(number)?;
        self.number = record.next;
        self.most -= 1;
        Some((number, record))
    }
}
