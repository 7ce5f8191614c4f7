//! What a line begins with.

ghost use Rattle.std.specs.Prelude.{◌≡◌, ◌↔◌, IsTrue};
ghost use Rattle.pylex_listing.specs.Machine.{lead_after_char, begun_by, is_hash};

/// What a physical line begins with, blanks aside.
#[derive(Clone, Copy, Debug, PartialEq, Eq)]
pub enum LeadingChar {
    /// Nothing yet.
    Nothing,
    /// A `#`.
    Hash,
    /// Another character.
    Other,
}

impl LeadingChar {
    /// What the line begins with after one more character.
    pub fn after(self, c: char) -> LeadingChar
        ensures { result ≡ lead_after_char self c }
    {
        if c == '\n' {
            return LeadingChar::Nothing;
        }
        match self {
            LeadingChar::Nothing => match c {
                ' ' | '\t' | '\x0c' => LeadingChar::Nothing,
                '#' => LeadingChar::Hash,
                _ => LeadingChar::Other,
            },
            LeadingChar::Hash => LeadingChar::Hash,
            LeadingChar::Other => LeadingChar::Other,
        }
    }

    /// Whether only blanks have come.
    pub fn is_nothing(self) -> bool
        ensures { IsTrue result ↔ (self ≡ LeadingChar.Nothing) }
    {
        matches!(self, LeadingChar::Nothing)
    }

    /// What the line begins with after a character that is neither a blank nor `#`.
    #[inline(always)]
    pub fn begun(self) -> LeadingChar
        ensures { result ≡ begun_by self }
    {
        match self {
            LeadingChar::Nothing => LeadingChar::Other,
            LeadingChar::Hash => LeadingChar::Hash,
            LeadingChar::Other => LeadingChar::Other,
        }
    }

    /// Whether the line begins with `#`.
    pub fn is_hash(self) -> bool
        ensures { result ≡ is_hash self }
    {
        matches!(self, LeadingChar::Hash)
    }
}
