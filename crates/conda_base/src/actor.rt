/// Who takes an event: a hart or a near-data core, by its number.
#[derive(Clone, Copy, Debug, PartialEq, Eq)]
pub enum Actor {
    Hart(u8),
    Core(u8),
}
