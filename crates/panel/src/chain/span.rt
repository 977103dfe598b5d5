// The two ends of a chain: the numbers of its first and last record, both 0 for an empty chain. They are no
// Option, since 0 is what `Chain::first` then answers and what a record that ends its chain names.
#[derive(Clone, Copy, Debug)]
pub struct Span {
    pub(super) first: u16,
    pub(super) last: u16,
}

impl Span {
    pub(super) const EMPTY: Span = Span { first: 0, last: 0 };
}
