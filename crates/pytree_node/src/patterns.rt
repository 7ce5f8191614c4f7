//! The patterns of `match` statements.
//!
//! Python library reference, `ast`: "Abstract grammar", `pattern`; language reference, 8.6.4.

use crate::constants::Constant;
use crate::expressions::Expr;
use crate::identifiers::Identifier;

/// A pattern: the class `pattern`.
#[cycle(patterns)]
pub enum Pattern {
    /// `1`, `-1`, `1 + 2j`, `'a'`, `a.b`.
    MatchValue {
        value: Expr,
    },
    /// `None`, `True`, `False`.
    MatchSingleton {
        value: Constant,
    },
    /// `[a, *b]`, `(a, *b)`, `a, *b`.
    MatchSequence {
        patterns: Vec<Pattern>,
    },
    /// `{1: a, 'b': c, **rest}`: as many keys as patterns.
    MatchMapping {
        keys: Vec<Expr>,
        patterns: Vec<Pattern>,
        rest: Option<Identifier>,
    },
    /// `A.B(c, d=e)`: as many names as patterns by name.
    MatchClass {
        cls: Box<Expr>,
        patterns: Vec<Pattern>,
        kwd_attrs: Vec<Identifier>,
        kwd_patterns: Vec<Pattern>,
    },
    /// `*a`, and `*_`, which has no name.
    MatchStar {
        name: Option<Identifier>,
    },
    /// `a`, `b as a`, and `_`, which has neither.
    MatchAs {
        pattern: Option<Box<Pattern>>,
        name: Option<Identifier>,
    },
    /// `a | b`.
    MatchOr {
        patterns: Vec<Pattern>,
    },
}

impl Drop for Pattern {
    /// Lets a pattern go. By hand, so that it is proved here, and not once more in each crate
    /// that drops one.
    fn drop(self) {
        match self {
            Pattern::MatchValue { value: _value } => {}
            Pattern::MatchSingleton { value: _value } => {}
            Pattern::MatchSequence {
                patterns: _patterns,
            } => {}
            Pattern::MatchMapping {
                keys: _keys,
                patterns: _patterns,
                rest: _rest,
            } => {}
            Pattern::MatchClass {
                cls: _cls,
                patterns: _patterns,
                kwd_attrs: _kwd_attrs,
                kwd_patterns: _kwd_patterns,
            } => {}
            Pattern::MatchStar { name: _name } => {}
            Pattern::MatchAs {
                pattern: _pattern,
                name: _name,
            } => {}
            Pattern::MatchOr {
                patterns: _patterns,
            } => {}
        }
    }
}
