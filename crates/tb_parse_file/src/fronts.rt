//! What the rules without a depth answer.

/// What was read, and the first place behind it.
#[derive(Drop)]
pub struct Part<T> {
    pub tree: T,
    pub next: usize,
}
