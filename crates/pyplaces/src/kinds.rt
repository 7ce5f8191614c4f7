//! What a line is to the statements around it.
//!
//! Python language reference, 8 "Compound statements".

ghost use Rattle.std.specs.Prelude.{◌≡◌};
ghost use Rattle.pygrammar.specs.Blocks.{header_kind, is_except, kind_of};
ghost use Rattle.pygrammar.specs.FormOf.{form_of, header_of};
ghost use Rattle.pyplaces.specs.Steps.{begins_node, has_parts, is_clause, is_definition};

use pygrammar::{Form, Header};

/// Whether a line goes on with a statement of its level.
pub(crate) fn is_clause(form: &Form) -> bool
    ensures { result ≡ is_clause (kind_of (form_of form.now)) }
{
    match form {
        Form::Headed { header, suite: _ } => matches!(
            header,
            Header::Elif { .. }
                | Header::Else
                | Header::Except { .. }
                | Header::Finally
                | Header::Case { .. }
        ),
        _ => false,
    }
}

/// Whether a header begins a node with a span of its own: a statement, or the handler of an
/// `except`.
pub(crate) fn begins_node(header: &Header) -> bool
    ensures { result ≡ begins_node (header_kind (header_of header.now)) }
{
    !matches!(header, Header::Else | Header::Finally | Header::Case { .. })
}

/// Whether a header begins a handler.
pub(crate) fn is_except(header: &Header) -> bool
    ensures { result ≡ is_except (header_kind (header_of header.now)) }
{
    matches!(header, Header::Except { .. })
}

/// Whether a header has parts that stand before its body.
pub(crate) fn has_parts(header: &Header) -> bool
    ensures { result ≡ has_parts (header_kind (header_of header.now)) }
{
    !matches!(header, Header::Try | Header::Else | Header::Finally)
}

/// Whether a header has parts that stand after its body.
pub(crate) fn is_definition(header: &Header) -> bool
    ensures { result ≡ is_definition (header_kind (header_of header.now)) }
{
    matches!(header, Header::Def { .. })
}
