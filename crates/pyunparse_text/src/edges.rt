//! What a token says of the blank after it.

/// What of a token decides whether the next one touches it.
#[derive(Clone, Copy)]
pub struct Edge {
    /// It keeps close to what stands after it.
    pub following: bool,
    /// It is a number, which a point doesn't touch.
    pub number: bool,
    /// It is a comma, which the colon of a slice doesn't touch.
    pub comma: bool,
    /// It is the brace that a field of an f-string begins with, which no other brace touches.
    pub brace: bool,
}
