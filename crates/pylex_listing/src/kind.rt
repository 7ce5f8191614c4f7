//! The types of tokens.

ghost use Rattle.std.specs.Prelude.{◌≡◌};
ghost use Rattle.pylex_listing.specs.ListingLines.{kind_name};

/// The type of an entry, as the module `token` names them.
#[derive(Clone, Copy, Debug, PartialEq, Eq)]
pub enum Kind {
    Encoding,
    Name,
    Number,
    String,
    Op,
    Comment,
    Nl,
    Newline,
    Indent,
    Dedent,
    EndMarker,
}

impl Kind {
    /// The name of the type, as the module `token` spells it.
    pub fn name(self) -> &'static str
        ensures { result.now ≡ kind_name self }
    {
        match self {
            Kind::Encoding => "ENCODING",
            Kind::Name => "NAME",
            Kind::Number => "NUMBER",
            Kind::String => "STRING",
            Kind::Op => "OP",
            Kind::Comment => "COMMENT",
            Kind::Nl => "NL",
            Kind::Newline => "NEWLINE",
            Kind::Indent => "INDENT",
            Kind::Dedent => "DEDENT",
            Kind::EndMarker => "ENDMARKER",
        }
    }
}

pub use pylex_lexeme::kinds::Exact;
