//! What stands between the members of a list, and how close tokens keep to their neighbours.

ghost use Rattle.std.specs.Prelude.{◌≡◌};
ghost use Rattle.pyunparse_text.specs.Marks.{is_close_after, is_close_before};

/// The token between each two members of a list.
#[derive(Clone, Copy)]
pub enum Between {
    Comma,
    And,
    Or,
}

/// How close a token keeps to its neighbours, by what it is to them.
#[derive(Clone, Copy)]
pub enum Role {
    /// Between two blanks.
    Free,
    /// Close to what stands after it: an opening bracket, or a prefix.
    Leading,
    /// Close to what stands before it: a closing bracket, a comma, or the colon of a header.
    Trailing,
    /// Close to both.
    Tight,
}

impl Role {
    /// Whether a token of this role keeps close to what stands before it.
    #[inline(always)]
    pub fn is_close_before(self) -> bool
        ensures { result ≡ is_close_before self }
    {
        match self {
            Role::Free | Role::Leading => false,
            Role::Trailing | Role::Tight => true,
        }
    }

    /// Whether a token of this role keeps close to what stands after it.
    #[inline(always)]
    pub fn is_close_after(self) -> bool
        ensures { result ≡ is_close_after self }
    {
        match self {
            Role::Free | Role::Trailing => false,
            Role::Leading | Role::Tight => true,
        }
    }
}
