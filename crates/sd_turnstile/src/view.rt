//! What a seat knows.
use std::collections::LinkedList;

/// Where a seat stands in the queue.
pub enum Stage {
    /// It has no ticket.
    Idle,
    /// It has this ticket, and waits for it to be served.
    Waiting(u64),
    /// Its ticket, this one, is served. The object is its own.
    Serving(u64),
}

/// What another seat knew. No value of it is made.
pub struct Known<E> {
    /// The number of that seat.
    pub by: u64,
    /// The beginning of the history that it had seen.
    pub seen: LinkedList<E>,
    /// Its own entries.
    pub own: LinkedList<E>,
}

/// What a seat knows. No value of it is made.
pub struct View<E> {
    /// How many parts of the turnstile it has.
    pub parts: u32,
    /// The beginning of the history that it has seen.
    pub seen: LinkedList<E>,
    /// Its own entries.
    pub own: LinkedList<E>,
    /// What another seat knew: the one that it was split off from, or one that it took in. It is compared with `seen` at the next look.
    pub told: Option<Known<E>>,
    pub stage: Stage,
}
