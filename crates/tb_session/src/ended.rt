use tb_text::{List, Status};

/// What a run leaves. The disk, the feed and the sink come back whatever the status is.
#[derive(Drop)]
pub struct Ended<D, F, O> {
    pub status: Status,
    /// The generations whose reports were printed, ascending.
    pub settled: List<u64>,
    /// How many files were checked.
    pub checked: u64,
    /// How many projects were written.
    pub built: u64,
    pub disk: D,
    pub feed: F,
    pub out: O,
}
