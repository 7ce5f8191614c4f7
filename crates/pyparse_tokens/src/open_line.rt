//! What is kept of the line that is open: what its tokens are to the grammar, where it starts, and
//! the texts of its ends.

ghost use Rattle.std.specs.Prelude.{◌≡◌, ◌<◌, ◌++◌, [], ◌∷◌, map, length, false, IfOk, OnOk};
ghost use Rattle.std.specs.Prelude.{Some, None};
ghost use Rattle.std.specs.Str.{chars};
ghost use Rattle.pytoken.specs.declared.faults.TokenError.{TokenError};
ghost use Rattle.pytoken.specs.Terminals.{terminals_of, fault_of};
ghost use Rattle.pytoken.specs.TerminalOf.{terminal};
ghost use Rattle.pyparse_tokens.specs.Inner.OpenLines.{of_first, spell_match, keeps_match, Pushes};

use crate::room::put;
use crate::tokens::Token;
use pylex::Kind;
use pysource::Place;
use pytoken::{Terminal, TerminalFault, TokenError, push_terminals, terminal_of};
use pytree_node::Extent;
use std::alloc::{AllocError, Global};

/// Whether the texts of a line's first and last token are those of the header of a `match`
/// statement.
fn spell_match(first: &str, last: &str) -> bool
    ensures { result ≡ spell_match (chars first.now) (chars last.now) }
{
    first == "match" && last == ":"
}

/// What is kept of the line that is open.
#[derive(Drop)]
pub(crate) struct OpenLine<'a> {
    /// What the tokens of the line are.
    terminals: Vec<Terminal<'a>>,
    /// Where the first of them starts.
    start: Place,
    /// The text of the first of them.
    first: &'a str,
    /// The text of the last of them.
    last: &'a str,
}

impl<'a> OpenLine<'a> {
    /// No token was kept.
    pub(crate) fn new(alloc: Global) -> OpenLine<'a>
        ensures empty { result.terminals.items ≡ [] }
        ensures start { result.start ≡ record { row = 1; column = 0 } }
        ensures is_match { keeps_match result ≡ false }
    {
        OpenLine {
            terminals: Vec::new(alloc),
            start: Place { row: 1, column: 0 },
            first: "",
            last: "",
        }
    }

    /// Lets go of the tokens. The room that they took is kept.
    pub(crate) fn clear(&mut self)
        ensures { self.new.terminals.items ≡ [] }
    {
        self.terminals.clear();
    }

    /// Keeps the text of the next token, and where it starts if it is the first.
    #[inline(always)]
    fn push_ends(&mut self, start: Place, text: &'a str)
        ensures terminals { self.new.terminals ≡ self.old.terminals }
        ensures start { self.new.start ≡ of_first self.old.terminals.items self.old.start start }
        ensures first { chars self.new.first.now
            ≡ of_first self.old.terminals.items (chars self.old.first.now) (chars text.now) }
        ensures last { chars self.new.last.now ≡ chars text.now }
    {
        if self.terminals.is_empty() {
            self.start = start;
            self.first = text;
        }
        self.last = text;
    }

    /// Appends a token that is one terminal.
    #[inline(always)]
    pub(crate) fn push(
        &mut self,
        start: Place,
        text: &'a str,
        single: Terminal<'a>,
    ) -> Result<(), AllocError>
        ensures { OnOk result
            (Pushes start (chars text.now) (terminal single.entry ∷ []) self.old self.new) }
    {
        self.push_ends(start, text);
        put(&mut self.terminals, single)
    }

    /// Appends a token that is several terminals.
    fn push_several(
        &mut self,
        start: Place,
        text: &'a str,
        terminals: &[Terminal<'a>],
    ) -> Result<(), AllocError>
        ensures { OnOk result
            (Pushes start (chars text.now) (map terminal terminals.now) self.old self.new) }
    {
        self.push_ends(start, text);
        self.terminals.extend_from_slice(terminals)
    }

    /// Appends a string that may be an f-string, or tells the fault that it has by itself. One that
    /// has a fault isn't appended.
    #[inline(never)]
    fn push_string(
        &mut self,
        alloc: Global,
        extent: Extent,
        start: Place,
        text: &'a str,
    ) -> Result<Option<TokenError>, AllocError>
        ensures fault { IfOk result
            (λ fault. fault ≡ fault_of extent Kind.String (chars text.now)) }
        ensures pushes { IfOk result
            (λ fault. fault ≡ None
            → Pushes start (chars text.now) (terminals_of Kind.String (chars text.now))
            self.old self.new) }
        ensures same { IfOk result
            (λ fault. (e : TokenError) → fault ≡ Some e → self.new ≡ self.old) }
    {
        // What is appended of a string with a fault is let go.
        let mut made = Vec::new(alloc);
        match push_terminals(alloc, extent, Kind::String, text, &mut made) {
            Err(TerminalFault::Memory) => Err(AllocError),
            Err(TerminalFault::Token(error)) => Ok(Some(error)),
            Ok(()) => {
                self.push_several(start, text, &made)?;
                Ok(None)
            }
        }
    }

    /// Appends a token, or tells the fault that it has by itself in an extent of the language. One
    /// that has a fault isn't appended.
    #[inline(always)]
    pub(crate) fn push_token(
        &mut self,
        alloc: Global,
        extent: Extent,
        token: Token<'a>,
    ) -> Result<Option<TokenError>, AllocError>
        ensures fault { IfOk result
            (λ fault. fault ≡ fault_of extent token.entry.kind (chars token.entry.text.now)) }
        ensures pushes { IfOk result
            (λ fault. fault ≡ None
            → Pushes token.entry.start (chars token.entry.text.now)
            (terminals_of token.entry.kind (chars token.entry.text.now)) self.old self.new) }
        ensures same { IfOk result
            (λ fault. (e : TokenError) → fault ≡ Some e → self.new ≡ self.old) }
    {
        match terminal_of(alloc, extent, token.kind, token.text) {
            Err(TerminalFault::Memory) => Err(AllocError),
            Err(TerminalFault::Token(error)) => match token.kind {
                Kind::String => self.push_string(alloc, extent, token.start, token.text),
                _ => Ok(Some(error)),
            },
            Ok(terminal) => {
                self.push(token.start, token.text, terminal)?;
                Ok(None)
            }
        }
    }

    /// Whether no token is kept.
    #[inline(always)]
    pub(crate) fn is_empty(&self) -> bool
        ensures { result ≡ false → 0 < length self.now.terminals.items }
    {
        self.terminals.is_empty()
    }

    /// What its tokens are.
    pub(crate) fn terminals(&self) -> &[Terminal<'a>]
        ensures { result.now ≡ self.now.terminals.items }
    {
        self.terminals.as_slice()
    }

    /// Where it starts.
    #[inline(always)]
    pub(crate) fn start(&self) -> Place
        ensures { result ≡ self.now.start }
    {
        self.start
    }

    /// Whether it begins and ends as the header of a `match` statement does.
    pub(crate) fn is_match(&self) -> bool
        ensures { result ≡ keeps_match self.now }
    {
        spell_match(self.first, self.last)
    }
}
