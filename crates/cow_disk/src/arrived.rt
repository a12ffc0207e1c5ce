/// What came of a page that was sent.
#[derive(Clone, Copy, Debug, PartialEq, Eq)]
pub enum Arrived {
    /// The page was absent, and is here now.
    Got(u32),
    /// The page was here, or it is one of another image. Nothing has changed.
    Had(u32),
}
