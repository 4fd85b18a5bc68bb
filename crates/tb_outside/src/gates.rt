use tb_text::Path;

/// A place that each job passes between its claim and its publication. A test may hold a job up here; nothing is
/// claimed of it.
pub trait Gate {
    fn enter(&self, project: &Path);
}
