// A line's value, and where it lies.

/// The value of a line, and the line's place in its set.
#[derive(Clone, Copy)]
pub struct Placed<T: Copy> {
    pub value: T,
    pub place: usize,
}
