//! The lexemes of a text, each the longest at its place (reference 2.1 and 2.3 to 2.6).

ghost use Rattle.std.specs.Prelude.{◌≡◌, ◌==◌, ℕ, List, true, false, Some, IfSome, IfNone};
ghost use Rattle.std.specs.Str.{chars};
ghost use Rattle.pylex_lexeme.specs.Chars.{begins, starts_name, is_blank_char, is_prefix_letter};
ghost use Rattle.pylex_lexeme.specs.Characters.{backslash, carriage_return, hash, line_feed};
ghost use Rattle.pylex_lexeme.specs.Strings.{opens_string};
ghost use Rattle.pylex_lexeme.specs.Lengths.{begins_number, Opens};
ghost use Rattle.pylex_lexeme.specs.Lexemes.{lexeme_at, is_significant_class, is_blanks_class};
ghost use Rattle.pylex_lexeme.specs.Lexemes.{is_line_end_class, is_join_class, is_opener_class};
ghost use Rattle.pylex_lexeme.specs.Lexemes.{is_closer_class};
ghost use Rattle.pylex_lexeme.specs.Cuts.{TakesLexeme, Cuts, BeginsOther, begins_significant};
ghost use Rattle.pylex_lexeme.specs.Cuts.{is_delimiter};
ghost use Rattle.pylex_lexeme.specs.Inner.Frequent.{is_sign};

use crate::kinds::Exact;
use crate::number::number;
use crate::operators::longest_operator;
use crate::scanner::{CharSet, Scanner};
use crate::string::{opening, string};

/// The classes of lexemes.
#[derive(Clone, Copy, Debug, PartialEq, Eq)]
pub enum Class {
    /// An identifier or keyword.
    Name,
    Number,
    /// A string or bytes literal, its prefix included.
    String,
    /// An operator or delimiter, with its exact type.
    Operator(Exact),
    /// `#` and what follows it in its line.
    Comment,
    /// Spaces, tabs and form feeds.
    Blanks,
    /// LF or CR LF.
    LineEnd,
    /// A backslash and a line end.
    Join,
}

impl Class {
    /// Whether such a lexeme makes a line logical.
    pub fn is_significant(self) -> bool
        ensures { result ≡ is_significant_class self }
    {
        match self {
            Class::Blanks | Class::Comment | Class::LineEnd => false,
            Class::Name | Class::Number | Class::String | Class::Operator(_) | Class::Join => true,
        }
    }

    /// Whether it is blanks.
    pub fn is_blanks(self) -> bool
        ensures { result ≡ is_blanks_class self }
    {
        matches!(self, Class::Blanks)
    }

    /// Whether it is a line end.
    pub fn is_line_end(self) -> bool
        ensures { result ≡ is_line_end_class self }
    {
        matches!(self, Class::LineEnd)
    }

    /// Whether it is a backslash and a line end.
    pub fn is_join(self) -> bool
        ensures { result ≡ is_join_class self }
    {
        matches!(self, Class::Join)
    }

    /// Whether it is an opening bracket.
    #[inline(always)]
    pub fn is_opener(self) -> bool
        ensures { result ≡ is_opener_class self }
    {
        match self {
            Class::Operator(operator) => operator.is_opener(),
            _ => false,
        }
    }

    /// Whether it is a closing bracket.
    #[inline(always)]
    pub fn is_closer(self) -> bool
        ensures { result ≡ is_closer_class self }
    {
        match self {
            Class::Operator(operator) => operator.is_closer(),
            _ => false,
        }
    }
}

/// Takes the name that stands here.
#[inline(always)]
fn name(text: &mut Scanner)
    requires no_string { opens_string text.old ≡ false }
    requires start { begins starts_name text.old ≡ true }
    ensures { TakesLexeme text.old (Some Class.Name) text.new }
{
    text.bump_while(CharSet::NamePart);
}

/// Takes the name that stands here, if it is of ASCII and followed neither by a quote nor by a
/// character past ASCII: otherwise a string may stand here, or a longer name.
#[inline(always)]
fn ascii_name(text: &mut Scanner) -> Option<Class>
    requires { begins starts_name text.old ≡ true }
    ensures { IfSome result (λ k. TakesLexeme text.old (Some k) text.new) }
{
    let _ = text.bump();
    text.bump_ascii(CharSet::NamePart);
    if text.has_quote_or_wide() {
        return None;
    }
    Some(Class::Name)
}

/// Takes the comment that stands here.
fn comment(text: &mut Scanner)
    requires { begins (λ c. c == hash) text.old ≡ true }
    ensures { TakesLexeme text.old (Some Class.Comment) text.new }
{
    text.bump_while(CharSet::CommentPart);
}

/// Takes the blanks that stand here.
#[inline(always)]
fn blanks(text: &mut Scanner)
    requires { begins is_blank_char text.old ≡ true }
    ensures { TakesLexeme text.old (Some Class.Blanks) text.new }
{
    let _ = text.bump();
    text.bump_ascii(CharSet::Blank);
}

/// Takes the LF that stands here.
#[inline(always)]
fn line_feed(text: &mut Scanner)
    requires { begins (λ c. c == line_feed) text.old ≡ true }
    ensures { TakesLexeme text.old (Some Class.LineEnd) text.new }
{
    text.bump_count(1);
}

/// Takes the CR that stands here and the LF after it; a lone CR is no lexeme.
fn carriage_return(text: &mut Scanner) -> Option<Class>
    requires { begins (λ c. c == carriage_return) text.old ≡ true }
    ensures { TakesLexeme text.old result text.new }
{
    if !text.has_next(1, CharSet::One('\n')) {
        return None;
    }
    text.bump_count(2);
    Some(Class::LineEnd)
}

/// Takes the backslash that stands here and the line end after it; another backslash is no lexeme.
fn join(text: &mut Scanner) -> Option<Class>
    requires { begins (λ c. c == backslash) text.old ≡ true }
    ensures { TakesLexeme text.old result text.new }
{
    if text.has_next(1, CharSet::One('\n')) {
        text.bump_count(2);
        return Some(Class::Join);
    }
    if !text.has_line_end(1) {
        return None;
    }
    text.bump_count(3);
    Some(Class::Join)
}

/// Takes the operator that stands here, if one does.
#[inline(always)]
fn operator(text: &mut Scanner) -> Option<Class>
    requires { BeginsOther text.old }
    ensures { TakesLexeme text.old result text.new }
{
    let (exact, len) = longest_operator(text)?;
    text.bump_count(len);
    Some(Class::Operator(exact))
}

/// Takes the bracket or comma that stands here.
#[inline(always)]
fn delimiter(text: &mut Scanner, which: Exact) -> Class
    requires { begins (is_delimiter which) text.old ≡ true }
    ensures { TakesLexeme text.old (Some result) text.new }
{
    let _ = text.bump();
    Class::Operator(which)
}

/// Takes the point, colon or equals sign that stands here, if a character of ASCII is after it that
/// is not among those from `*` to `>`: so no longer operator and no number stands here.
#[inline(always)]
fn sign(text: &mut Scanner, which: Exact) -> Option<Class>
    requires { begins (is_sign which) text.old ≡ true }
    ensures { IfSome result (λ k. TakesLexeme text.old (Some k) text.new) }
{
    let _ = text.bump();
    let Some(next) = text.first_ascii() else {
        return None;
    };
    if '*' <= next && next <= '>' {
        return None;
    }
    Some(Class::Operator(which))
}

/// Takes the string that stands here, after a prefix of `prefix_len` characters; one that isn't
/// ended is no lexeme.
#[inline(always)]
fn literal(text: &mut Scanner, prefix_len: usize) -> Option<Class>
    requires { Opens prefix_len text.old }
    ensures { TakesLexeme text.old result text.new }
{
    let start = text.again();
    if string(text, prefix_len) {
        return Some(Class::String);
    }
    *text = start;
    None
}

/// Takes the string whose prefix begins here, or otherwise the name, by another scanner: so this
/// one need not stand in memory.
#[inline(always)]
fn prefixed(text: &mut Scanner) -> Option<Class>
    requires { begins is_prefix_letter text.old ≡ true }
    ensures { TakesLexeme text.old result text.new }
{
    let mut ahead = text.again();
    let class = literal_or_name(&mut ahead);
    *text = ahead;
    class
}

/// Takes the string whose prefix begins here, or otherwise the name.
#[inline(never)]
fn literal_or_name(text: &mut Scanner) -> Option<Class>
    requires { begins is_prefix_letter text.old ≡ true }
    ensures { TakesLexeme text.old result text.new }
{
    match opening(text) {
        Some(prefix_len) => literal(text, prefix_len),
        None => {
            name(text);
            Some(Class::Name)
        }
    }
}

/// Whether a name may begin with a character. Those of ASCII are recognized without a table.
#[inline(always)]
fn is_name_start(c: char) -> bool
    ensures { result ≡ starts_name c }
{
    if c.is_ascii() {
        return c.is_ascii_alphabetic() || c == '_';
    }
    unicode_ident::is_xid_start(c)
}

/// Whether a number begins here.
#[inline(always)]
fn has_number(text: &Scanner) -> bool
    ensures { result ≡ begins_number text.now }
{
    match text.first() {
        Some('.') => text.has_next(1, CharSet::Digit),
        Some(c) => CharSet::Digit.has(c),
        None => false,
    }
}

/// Takes the longest lexeme that stands here, and says its class; none and nothing where no lexeme
/// stands.
#[tactic(auto, using(crate::proofs::Lexemes::Union::begins_by))]
#[inline(never)]
fn any_lexeme(text: &mut Scanner) -> Option<Class>
    ensures { TakesLexeme text.old result text.new }
{
    match text.first()? {
        '#' => {
            comment(text);
            Some(Class::Comment)
        }
        '\n' => {
            line_feed(text);
            Some(Class::LineEnd)
        }
        '\r' => {
            let mut ahead = text.again();
            let class = carriage_return(&mut ahead);
            *text = ahead;
            class
        }
        '\\' => {
            let mut ahead = text.again();
            let class = join(&mut ahead);
            *text = ahead;
            class
        }
        c if CharSet::Blank.has(c) => {
            blanks(text);
            Some(Class::Blanks)
        }
        c if CharSet::Quote.has(c) => literal(text, 0),
        c if CharSet::PrefixLetter.has(c) => prefixed(text),
        c if is_name_start(c) => {
            name(text);
            Some(Class::Name)
        }
        _ if has_number(text) => {
            number(text);
            Some(Class::Number)
        }
        _ => operator(text),
    }
}

/// Takes the lexeme that stands here, if it is one of the frequent ones: blanks, a name of ASCII, a
/// line feed, a bracket, a comma, or a point, colon or equals sign alone. None says nothing.
#[tactic(auto, using(crate::proofs::Lexemes::Union::begins_by))]
#[inline(always)]
fn frequent_lexeme(text: &mut Scanner) -> Option<Class>
    ensures { IfSome result (λ k. TakesLexeme text.old (Some k) text.new) }
{
    let Some(first) = text.first_ascii() else {
        return None;
    };
    match first {
        c if CharSet::Blank.has(c) => {
            blanks(text);
            Some(Class::Blanks)
        }
        c if is_name_start(c) => ascii_name(text),
        '\n' => {
            line_feed(text);
            Some(Class::LineEnd)
        }
        '(' => Some(delimiter(text, Exact::LPar)),
        ')' => Some(delimiter(text, Exact::RPar)),
        '[' => Some(delimiter(text, Exact::LSqb)),
        ']' => Some(delimiter(text, Exact::RSqb)),
        '{' => Some(delimiter(text, Exact::LBrace)),
        '}' => Some(delimiter(text, Exact::RBrace)),
        ',' => Some(delimiter(text, Exact::Comma)),
        '.' => sign(text, Exact::Dot),
        ':' => sign(text, Exact::Colon),
        '=' => sign(text, Exact::Equal),
        _ => None,
    }
}

/// Takes the longest lexeme that stands here, by a call and by another scanner: so this one need
/// not stand in memory.
#[inline(always)]
fn lexeme_by_call(text: &mut Scanner) -> Option<Class>
    ensures { TakesLexeme text.old result text.new }
{
    let mut ahead = text.again();
    let class = any_lexeme(&mut ahead);
    *text = ahead;
    class
}

/// Takes the longest lexeme that stands here, and says its class; none and nothing where no lexeme
/// stands.
///
/// Frequent ones need no call.
#[inline(always)]
fn lexeme(text: &mut Scanner) -> Option<Class>
    ensures { TakesLexeme text.old result text.new }
{
    let mut ahead = text.again();
    if let Some(class) = frequent_lexeme(&mut ahead) {
        *text = ahead;
        return Some(class);
    }
    lexeme_by_call(text)
}

/// The longest lexeme at the front of a text: its class, its text, and what is after it; none
/// where no lexeme stands.
#[inline(always)]
pub fn cut(text: &str) -> Option<(Class, &str, &str)>
    ensures some { IfSome result (λ x. Cuts text.now x.0 x.1.now x.2.now) }
    ensures none { IfNone result (lexeme_at (chars text.now) ≡ None) }
{
    let mut scanner = Scanner::new(text);
    let class = lexeme(&mut scanner)?;
    let (front, back) = text.split_at(text.len() - scanner.len());
    Some((class, front, back))
}

/// Whether a text begins with what makes a line logical: neither a blank, a comment, a line end,
/// nor its end.
#[inline(always)]
pub fn begins_significant(text: &str) -> bool
    ensures { result ≡ begins_significant (chars text.now) }
{
    let scanner = Scanner::new(text);
    let Some(first) = scanner.first() else {
        return false;
    };
    match first {
        '#' | '\n' => false,
        '\r' => !scanner.has_next(1, CharSet::One('\n')),
        _ => !CharSet::Blank.has(first),
    }
}
