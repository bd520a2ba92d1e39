//! What a pass knows.

use std::collections::LinkedList;

/// What a pass put, took and dropped, and its parts of the right to know the whole. No value of it is ever made.
pub struct Tally<P> {
    pub parts: u64,
    pub put: LinkedList<P>,
    pub taken: LinkedList<P>,
    pub dropped: LinkedList<P>,
}
