/// What a crash leaves of the changes that no sync has followed.
#[derive(Clone, Copy, Debug, PartialEq, Eq)]
pub enum Crash {
    /// All of them are lost.
    Old,
    /// All of them are kept.
    New,
    /// All of them are kept, but each file that was written has the first half of its bytes.
    Half,
}
