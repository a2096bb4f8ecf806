// What one event was.
use arrayvec::ArrayVec;
use schedule_log::Entry;

/// What an event was, and the bytes that it made output.
#[derive(Debug, Drop)]
pub struct Event {
    pub entry: Entry,
    pub out: ArrayVec<u8, 64>,
}
