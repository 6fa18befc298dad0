//! The settings of a run: its limit, its resumes, its store, and the locations to print after it.
use ed_words::Size;

/// The settings of a run.
#[derive(Clone, Copy)]
pub struct Settings {
    /// The most orders that may be obeyed, 1 to 100,000,000.
    pub limit: u32,
    /// How often the machine is restarted after a stop, 0 to 1000.
    pub resumes: u32,
    /// The size of the store.
    pub size: Size,
    /// The locations to print after the run, if any.
    pub post_mortem: Option<Window>,
}

/// Consecutive locations, at 144 or above and within the store.
#[derive(Clone, Copy)]
pub struct Window {
    /// The first location.
    pub first: u16,
    /// The number of locations.
    pub count: u16,
}
