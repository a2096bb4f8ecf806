/// The state of a line in a hart's cache: modified, exclusive or shared.
///
/// An invalid line isn't held.
#[derive(Clone, Copy, Debug, PartialEq, Eq)]
pub enum Mesi {
    M,
    E,
    S,
}
