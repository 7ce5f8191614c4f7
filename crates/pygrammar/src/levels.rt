//! The levels of the expression grammar.

ghost use Rattle.std.specs.Prelude.{◌≡◌};
ghost use Rattle.pygrammar.specs.Operators.{below, rank};

/// A line of the expression grammar (language reference, 10), the lowest first: what binds least.
///
/// In each line below the words with a capital are levels. Up to [`Level::Primary`] each level also
/// takes whatever the next one takes. The last five are the places of members, of subscripts and of
/// the subject of a `match`.
#[derive(Clone, Copy, Debug, PartialEq, Eq)]
pub enum Level {
    /// `yield_expr | star_expressions`: `"yield" "from" Expression`, `"yield" [Stars]`, or `Stars`.
    Value,
    /// `star_expressions`: `StarItem ("," StarItem)+ [","]`, `StarItem ","`, or `StarItem`.
    Stars,
    /// `star_expression`: `"*" BitOr`, or `Expression`.
    StarItem,
    /// `named_expression`: `NAME ":=" Expression`, or `Expression`.
    Named,
    /// `expression`: `"lambda" [params] ":" Expression`, `Or "if" Or "else" Expression`, or `Or`.
    Expression,
    /// `disjunction`: `And ("or" And)+`, or `And`.
    Or,
    /// `conjunction`: `Not ("and" Not)+`, or `Not`.
    And,
    /// `inversion`: `"not" Not`, or `Compare`.
    Not,
    /// `comparison`: `BitOr (comparison BitOr)+`, or `BitOr`.
    Compare,
    /// `bitwise_or`: `BitOr "|" BitXor`, or `BitXor`.
    BitOr,
    /// `bitwise_xor`: `BitXor "^" BitAnd`, or `BitAnd`.
    BitXor,
    /// `bitwise_and`: `BitAnd "&" Shift`, or `Shift`.
    BitAnd,
    /// `shift_expr`: `Shift ("<<" | ">>") Sum`, or `Sum`.
    Shift,
    /// `sum`: `Sum ("+" | "-") Term`, or `Term`.
    Sum,
    /// `term`: `Term ("*" | "/" | "//" | "%" | "@") Factor`, or `Factor`.
    Term,
    /// `factor`: `("+" | "-" | "~") Factor`, or `Power`.
    Factor,
    /// `power`: `Await "**" Factor`, or `Await`.
    Power,
    /// `await_primary`: `"await" Primary`, or `Primary`.
    Await,
    /// `primary`: an attribute, a call or a subscript of a `Primary`, or `Atom`.
    Primary,
    /// `atom`: a name, a constant, or what stands in brackets.
    Atom,
    /// `star_named_expression`, a member in brackets: `"*" BitOr`, or `Named`.
    Elem,
    /// `slices`, what a subscript holds: `Slice`, or `Part ("," Part)* [","]` as a tuple.
    Slices,
    /// `slice | starred_expression`, a member of `slices`: `Slice`, or `"*" Expression`.
    Part,
    /// `slice`: `[Expression] ":" [Expression] [":" [Expression]]`, or `Named`.
    Slice,
    /// `subject_expr`: `Elem ("," Elem)+ [","]`, `Elem ","`, or `Named`.
    Subject,
}

impl Level {
    /// The place of the level in one order: a level of a higher rank is further in, and the lowest
    /// has rank 0.
    #[inline(always)]
    pub fn rank(self) -> u8
        ensures { result ≡ rank self }
    {
        match self {
            Level::Subject => 0,
            Level::Value => 1,
            Level::Slices => 2,
            Level::Stars => 3,
            Level::Part => 4,
            Level::Slice => 5,
            Level::StarItem => 6,
            Level::Elem => 7,
            Level::Named => 8,
            Level::Expression => 9,
            Level::Or => 10,
            Level::And => 11,
            Level::Not => 12,
            Level::Compare => 13,
            Level::BitOr => 14,
            Level::BitXor => 15,
            Level::BitAnd => 16,
            Level::Shift => 17,
            Level::Sum => 18,
            Level::Term => 19,
            Level::Factor => 20,
            Level::Power => 21,
            Level::Await => 22,
            Level::Primary => 23,
            Level::Atom => 24,
        }
    }

    /// The level that the last alternative of the level's line names. `Atom` names none, so it is
    /// its own.
    pub fn below(self) -> Level
        ensures { result ≡ below self }
    {
        match self {
            Level::Value => Level::Stars,
            Level::Stars => Level::StarItem,
            Level::StarItem => Level::Expression,
            Level::Named => Level::Expression,
            Level::Expression => Level::Or,
            Level::Or => Level::And,
            Level::And => Level::Not,
            Level::Not => Level::Compare,
            Level::Compare => Level::BitOr,
            Level::BitOr => Level::BitXor,
            Level::BitXor => Level::BitAnd,
            Level::BitAnd => Level::Shift,
            Level::Shift => Level::Sum,
            Level::Sum => Level::Term,
            Level::Term => Level::Factor,
            Level::Factor => Level::Power,
            Level::Power => Level::Await,
            Level::Await => Level::Primary,
            Level::Primary => Level::Atom,
            Level::Atom => Level::Atom,
            Level::Elem => Level::Named,
            Level::Slices => Level::Slice,
            Level::Part => Level::Slice,
            Level::Slice => Level::Named,
            Level::Subject => Level::Named,
        }
    }
}
