// The specification's view of a seat. These types occur only in contracts: no value of them is made.

use std::collections::LinkedList;

/// A pass: its number, and the prefix of the log that it has seen.
pub struct PassView<I> {
    pub number: u32,
    pub seen: LinkedList<(u32, I)>,
}

/// Whether a seat is inside, and the passes that it represents.
pub struct SeatView<I> {
    pub is_inside: bool,
    pub passes: LinkedList<PassView<I>>,
}
