//! The tokens of the expressions of fields.
//!
//! Python language reference, 2.4.3 "Formatted string literals".

ghost use Rattle.std.specs.Prelude.{◌≡◌, true, List, ℕ, OnOk};
ghost use Rattle.std.specs.Str.{chars};
ghost use Rattle.pylex_listing.specs.declared.kind.Kind.{Kind};
ghost use Rattle.pylex_listing.specs.EntryKinds.{kind_of};
ghost use Rattle.pyfstring_tokens.specs.FieldTokens.{is_gap};
ghost use Rattle.pyparse_marks.specs.TokenSpans.{Walk, past_lexeme, past_expression, past_single};

use crate::lengths::len;
use crate::walkers::Walker;
use pylex_lexeme::lexeme::{Class, cut};
use pylex_listing::Kind;
use std::alloc::{AllocError, Global};

/// What a token in the expression of a field is.
pub(crate) trait Tokens {
    // Goes past a token of this type and text.
    ghost past: { Kind → List ℕ → Walk → Walk };

    /// Goes past a token.
    fn pass(
        &self,
        alloc: Global,
        kind: Kind,
        text: &str,
        walker: &mut Walker,
    ) -> Result<(), AllocError>
        ensures { OnOk result (walker.new ≡ past kind (chars text.now) walker.old) };
}

/// Each token is one terminal.
#[derive(Drop)]
pub(crate) struct Single;

impl Tokens for Single {
    ghost past = { past_single };

    fn pass(&self, _: Global, _: Kind, text: &str, walker: &mut Walker) -> Result<(), AllocError> {
        walker.pass_text(text)
    }
}

/// Whether a lexeme may stand between tokens.
fn is_gap(class: Class) -> bool
    ensures { result ≡ is_gap class }
{
    matches!(class, Class::Blanks | Class::LineEnd | Class::Join)
}

/// The type of a token in a field.
fn kind_of(class: Class) -> Kind
    ensures { result ≡ kind_of class true }
{
    match class {
        Class::Name => Kind::Name,
        Class::Number => Kind::Number,
        Class::String => Kind::String,
        Class::Operator(_) => Kind::Op,
        Class::Comment => Kind::Comment,
        Class::Blanks | Class::LineEnd | Class::Join => Kind::Nl,
    }
}

/// Goes past a lexeme.
fn pass_lexeme<T: Tokens>(
    alloc: Global,
    tokens: &T,
    class: Class,
    text: &str,
    walker: &mut Walker,
) -> Result<(), AllocError>
    ensures { OnOk result (walker.new
        ≡ past_lexeme T.past (record { «class» = class; text = chars text.now }) walker.old) }
{
    if is_gap(class) {
        return walker.go_on(len(text));
    }
    tokens.pass(alloc, kind_of(class), text, walker)
}

/// Goes past the expression of a field, from the field's brace on.
pub(crate) fn pass_expression<T: Tokens>(
    alloc: Global,
    tokens: &T,
    text: &str,
    walker: &mut Walker,
) -> Result<(), AllocError>
    ensures { OnOk result (walker.new ≡ past_expression T.past (chars text.now) walker.old) }
{
    walker.pass(1)?;
    let mut rest = text;
    'lexemes: while let Some((class, front, back)) = cut(rest) {
        pass_lexeme(alloc, tokens, class, front, walker)?;
        rest = back;
    }
    walker.pass(1)
}
