//! The names of the operators, and their texts.

ghost use Rattle.std.specs.Prelude.{◌≡◌};
ghost use Rattle.pylex_lexeme.specs.Operators.{exact_name, exact_text, is_opener, is_closer};

/// The exact type of an operator or delimiter, as the module `token` names them.
#[derive(Clone, Copy, Debug, PartialEq, Eq)]
pub enum Exact {
    LPar,
    RPar,
    LSqb,
    RSqb,
    LBrace,
    RBrace,
    Colon,
    Comma,
    Semi,
    Plus,
    Minus,
    Star,
    Slash,
    VBar,
    Amper,
    Less,
    Greater,
    Equal,
    Dot,
    Percent,
    EqEqual,
    NotEqual,
    LessEqual,
    GreaterEqual,
    Tilde,
    Circumflex,
    LeftShift,
    RightShift,
    DoubleStar,
    PlusEqual,
    MinEqual,
    StarEqual,
    SlashEqual,
    PercentEqual,
    AmperEqual,
    VBarEqual,
    CircumflexEqual,
    LeftShiftEqual,
    RightShiftEqual,
    DoubleStarEqual,
    DoubleSlash,
    DoubleSlashEqual,
    At,
    AtEqual,
    RArrow,
    Ellipsis,
    ColonEqual,
}

impl Exact {
    /// Whether it is an opening bracket.
    #[inline(always)]
    pub fn is_opener(self) -> bool
        ensures { result ≡ is_opener self }
    {
        matches!(self, Exact::LPar | Exact::LSqb | Exact::LBrace)
    }

    /// Whether it is a closing bracket.
    #[inline(always)]
    pub fn is_closer(self) -> bool
        ensures { result ≡ is_closer self }
    {
        matches!(self, Exact::RPar | Exact::RSqb | Exact::RBrace)
    }

    /// How the operator or delimiter is written.
    pub fn text(self) -> &'static str
        ensures { result.now ≡ exact_text self }
    {
        match self {
            Exact::LPar => "(",
            Exact::RPar => ")",
            Exact::LSqb => "[",
            Exact::RSqb => "]",
            Exact::LBrace => "{",
            Exact::RBrace => "}",
            Exact::Colon => ":",
            Exact::Comma => ",",
            Exact::Semi => ";",
            Exact::Plus => "+",
            Exact::Minus => "-",
            Exact::Star => "*",
            Exact::Slash => "/",
            Exact::VBar => "|",
            Exact::Amper => "&",
            Exact::Less => "<",
            Exact::Greater => ">",
            Exact::Equal => "=",
            Exact::Dot => ".",
            Exact::Percent => "%",
            Exact::EqEqual => "==",
            Exact::NotEqual => "!=",
            Exact::LessEqual => "<=",
            Exact::GreaterEqual => ">=",
            Exact::Tilde => "~",
            Exact::Circumflex => "^",
            Exact::LeftShift => "<<",
            Exact::RightShift => ">>",
            Exact::DoubleStar => "**",
            Exact::PlusEqual => "+=",
            Exact::MinEqual => "-=",
            Exact::StarEqual => "*=",
            Exact::SlashEqual => "/=",
            Exact::PercentEqual => "%=",
            Exact::AmperEqual => "&=",
            Exact::VBarEqual => "|=",
            Exact::CircumflexEqual => "^=",
            Exact::LeftShiftEqual => "<<=",
            Exact::RightShiftEqual => ">>=",
            Exact::DoubleStarEqual => "**=",
            Exact::DoubleSlash => "//",
            Exact::DoubleSlashEqual => "//=",
            Exact::At => "@",
            Exact::AtEqual => "@=",
            Exact::RArrow => "->",
            Exact::Ellipsis => "...",
            Exact::ColonEqual => ":=",
        }
    }

    /// The name of the operator, as the module `token` spells it.
    pub fn name(self) -> &'static str
        ensures { result.now ≡ exact_name self }
    {
        match self {
            Exact::LPar => "LPAR",
            Exact::RPar => "RPAR",
            Exact::LSqb => "LSQB",
            Exact::RSqb => "RSQB",
            Exact::LBrace => "LBRACE",
            Exact::RBrace => "RBRACE",
            Exact::Colon => "COLON",
            Exact::Comma => "COMMA",
            Exact::Semi => "SEMI",
            Exact::Plus => "PLUS",
            Exact::Minus => "MINUS",
            Exact::Star => "STAR",
            Exact::Slash => "SLASH",
            Exact::VBar => "VBAR",
            Exact::Amper => "AMPER",
            Exact::Less => "LESS",
            Exact::Greater => "GREATER",
            Exact::Equal => "EQUAL",
            Exact::Dot => "DOT",
            Exact::Percent => "PERCENT",
            Exact::EqEqual => "EQEQUAL",
            Exact::NotEqual => "NOTEQUAL",
            Exact::LessEqual => "LESSEQUAL",
            Exact::GreaterEqual => "GREATEREQUAL",
            Exact::Tilde => "TILDE",
            Exact::Circumflex => "CIRCUMFLEX",
            Exact::LeftShift => "LEFTSHIFT",
            Exact::RightShift => "RIGHTSHIFT",
            Exact::DoubleStar => "DOUBLESTAR",
            Exact::PlusEqual => "PLUSEQUAL",
            Exact::MinEqual => "MINEQUAL",
            Exact::StarEqual => "STAREQUAL",
            Exact::SlashEqual => "SLASHEQUAL",
            Exact::PercentEqual => "PERCENTEQUAL",
            Exact::AmperEqual => "AMPEREQUAL",
            Exact::VBarEqual => "VBAREQUAL",
            Exact::CircumflexEqual => "CIRCUMFLEXEQUAL",
            Exact::LeftShiftEqual => "LEFTSHIFTEQUAL",
            Exact::RightShiftEqual => "RIGHTSHIFTEQUAL",
            Exact::DoubleStarEqual => "DOUBLESTAREQUAL",
            Exact::DoubleSlash => "DOUBLESLASH",
            Exact::DoubleSlashEqual => "DOUBLESLASHEQUAL",
            Exact::At => "AT",
            Exact::AtEqual => "ATEQUAL",
            Exact::RArrow => "RARROW",
            Exact::Ellipsis => "ELLIPSIS",
            Exact::ColonEqual => "COLONEQUAL",
        }
    }
}
