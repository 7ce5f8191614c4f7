//! The blanks that a line begins with.
//!
//! Python language reference, 2.1.8 "Indentation".

/// The widths of some blanks, counted after their last form feed.
#[derive(Clone, Copy, Debug, PartialEq, Eq)]
pub struct Widths {
    /// Where a tab goes to the next multiple of 8.
    pub eight: usize,
    /// Where a tab counts as one space.
    pub one: usize,
}
