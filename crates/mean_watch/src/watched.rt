//! What is answered while a trace is still being recorded.

/// Whether some run yields the events so far, or explains them where they are all.
#[derive(Clone, Copy, PartialEq, Eq)]
pub enum Watched {
    /// One does.
    Possible,
    /// None does, and all that could was tried.
    Impossible,
    /// More firings are to be tried than the budget allows.
    OverFirings,
    /// None does, but something passes its limit.
    OverAction,
}
