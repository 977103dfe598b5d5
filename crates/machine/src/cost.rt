// What machine cycles cost.
#[derive(Clone, Copy, Debug, PartialEq, Eq, Default)]
pub struct Cost {
    pub cycles: u32,
    pub states: u32,
}
