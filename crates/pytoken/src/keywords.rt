//! The keywords.
//!
//! Python language reference, 2.3.1 "Keywords".

ghost use Rattle.std.specs.Prelude.{◌≡◌, IsFalse, None};
ghost use Rattle.std.specs.Str.{chars};
ghost use Rattle.pytoken.specs.Keywords.{spelling_of, keyword_of};
ghost use Rattle.pytoken.specs.Inner.Readings.{first_letters, leads};

/// A keyword of Python 3.11.
#[derive(Clone, Copy, Debug, PartialEq, Eq)]
pub enum Keyword {
    False,
    None,
    True,
    And,
    As,
    Assert,
    Async,
    Await,
    Break,
    Class,
    Continue,
    Def,
    Del,
    Elif,
    Else,
    Except,
    Finally,
    For,
    From,
    Global,
    If,
    Import,
    In,
    Is,
    Lambda,
    Nonlocal,
    Not,
    Or,
    Pass,
    Raise,
    Return,
    Try,
    While,
    With,
    Yield,
}

/// The letters that keywords of a length begin with, as bits: a letter's is its byte modulo 64.
#[inline(always)]
fn first_letters(len: usize) -> u64
    ensures { result ≡ first_letters len }
{
    match len {
        // as, if, in, is, or
        2 => 0x0000_8202_0000_0000,
        // and, def, del, for, not, try
        3 => 0x0010_4052_0000_0000,
        // None, True, elif, else, from, pass, with
        4 => 0x0081_0060_0010_4000,
        // False, async, await, break, class, raise, while, yield
        5 => 0x0284_000E_0000_0040,
        // assert, except, global, import, lambda, return
        6 => 0x0004_12A2_0000_0000,
        // finally
        7 => 0x0000_0040_0000_0000,
        // continue, nonlocal
        8 => 0x0000_4008_0000_0000,
        _ => 0,
    }
}

/// Whether some keyword has so many bytes, and this letter in front.
#[inline(always)]
fn leads(len: usize, first: u8) -> bool
    ensures { result ≡ leads len first }
{
    (first_letters(len) >> (first % 64)) % 2 == 1
}

/// Whether a text may be a keyword, by its length and its first byte. Few names may.
#[inline(always)]
fn may_be_keyword(text: &str) -> bool
    ensures { IsFalse result → keyword_of text.now ≡ None }
{
    match text.as_bytes().first() {
        Some(first) => leads(text.len(), *first),
        None => false,
    }
}

/// The keyword whose bytes a text has: its first byte leaves few to compare it with.
#[tactic(auto, unfolding(crate::specs::Keywords::keywords, crate::specs::Keywords::keyword_of))]
fn spelled(text: &str) -> Option<Keyword>
    ensures { result ≡ keyword_of text.now }
{
    let first = text.as_bytes().first()?;
    match *first {
        b'F' => match text {
            "False" => Some(Keyword::False),
            _ => None,
        },
        b'N' => match text {
            "None" => Some(Keyword::None),
            _ => None,
        },
        b'T' => match text {
            "True" => Some(Keyword::True),
            _ => None,
        },
        b'a' => match text {
            "and" => Some(Keyword::And),
            "as" => Some(Keyword::As),
            "assert" => Some(Keyword::Assert),
            "async" => Some(Keyword::Async),
            "await" => Some(Keyword::Await),
            _ => None,
        },
        b'b' => match text {
            "break" => Some(Keyword::Break),
            _ => None,
        },
        b'c' => match text {
            "class" => Some(Keyword::Class),
            "continue" => Some(Keyword::Continue),
            _ => None,
        },
        b'd' => match text {
            "def" => Some(Keyword::Def),
            "del" => Some(Keyword::Del),
            _ => None,
        },
        b'e' => match text {
            "elif" => Some(Keyword::Elif),
            "else" => Some(Keyword::Else),
            "except" => Some(Keyword::Except),
            _ => None,
        },
        b'f' => match text {
            "finally" => Some(Keyword::Finally),
            "for" => Some(Keyword::For),
            "from" => Some(Keyword::From),
            _ => None,
        },
        b'g' => match text {
            "global" => Some(Keyword::Global),
            _ => None,
        },
        b'i' => match text {
            "if" => Some(Keyword::If),
            "import" => Some(Keyword::Import),
            "in" => Some(Keyword::In),
            "is" => Some(Keyword::Is),
            _ => None,
        },
        b'l' => match text {
            "lambda" => Some(Keyword::Lambda),
            _ => None,
        },
        b'n' => match text {
            "nonlocal" => Some(Keyword::Nonlocal),
            "not" => Some(Keyword::Not),
            _ => None,
        },
        b'o' => match text {
            "or" => Some(Keyword::Or),
            _ => None,
        },
        b'p' => match text {
            "pass" => Some(Keyword::Pass),
            _ => None,
        },
        b'r' => match text {
            "raise" => Some(Keyword::Raise),
            "return" => Some(Keyword::Return),
            _ => None,
        },
        b't' => match text {
            "try" => Some(Keyword::Try),
            _ => None,
        },
        b'w' => match text {
            "while" => Some(Keyword::While),
            "with" => Some(Keyword::With),
            _ => None,
        },
        b'y' => match text {
            "yield" => Some(Keyword::Yield),
            _ => None,
        },
        _ => None,
    }
}

impl Keyword {
    /// How the keyword is written.
    pub fn spelling(self) -> &'static str
        ensures { result.now ≡ spelling_of self }
    {
        match self {
            Keyword::False => "False",
            Keyword::None => "None",
            Keyword::True => "True",
            Keyword::And => "and",
            Keyword::As => "as",
            Keyword::Assert => "assert",
            Keyword::Async => "async",
            Keyword::Await => "await",
            Keyword::Break => "break",
            Keyword::Class => "class",
            Keyword::Continue => "continue",
            Keyword::Def => "def",
            Keyword::Del => "del",
            Keyword::Elif => "elif",
            Keyword::Else => "else",
            Keyword::Except => "except",
            Keyword::Finally => "finally",
            Keyword::For => "for",
            Keyword::From => "from",
            Keyword::Global => "global",
            Keyword::If => "if",
            Keyword::Import => "import",
            Keyword::In => "in",
            Keyword::Is => "is",
            Keyword::Lambda => "lambda",
            Keyword::Nonlocal => "nonlocal",
            Keyword::Not => "not",
            Keyword::Or => "or",
            Keyword::Pass => "pass",
            Keyword::Raise => "raise",
            Keyword::Return => "return",
            Keyword::Try => "try",
            Keyword::While => "while",
            Keyword::With => "with",
            Keyword::Yield => "yield",
        }
    }

    /// The keyword that a text is.
    #[inline(always)]
    pub fn of(text: &str) -> Option<Keyword>
        ensures { result ≡ keyword_of (chars text.now) }
    {
        if !may_be_keyword(text) {
            return None;
        }
        spelled(text)
    }
}
