//! Imports.
//!
//! Python language reference, 7.11 "The `import` statement".

ghost use Rattle.std.specs.Prelude.{◌≡◌, ◌+◌, ◌<◌, ◌≤◌, ◌∷◌, [], MatchResult, None, Some, length};
ghost use Rattle.std.specs.Prelude.{map};
ghost use Rattle.pylex_lexeme.specs.Characters.{asterisk};
ghost use Rattle.pytree_node.specs.TreeOf.{alias_of, stmt_of};
ghost use Rattle.pytree_node.specs.Trees as plain;
ghost use Rattle.pytoken.specs.TerminalOf.{terminal};
ghost use Rattle.pygrammar.specs.Forms as forms;
ghost use Rattle.pygrammar.specs.LineReader as line;
ghost use Rattle.pygrammar.specs.Reader as reader;
ghost use Rattle.pyparse_nodes.specs.Answers.{PartAnswered};
ghost use Rattle.pyparse_nodes.specs.Views.{seen};
ghost use Rattle.pyparse_statement.specs.Inner.Imports.{dots_at, dots_in};
ghost use Rattle.std.specs.Prelude.{IfOk};
ghost use Rattle.pyparse_statement.specs.PlacedParts.{NamesPlaced};
ghost use Rattle.pyparse_statement.specs.PlacedStatements.{ImportPlaced, WordPlaced};

use crate::statements::aliases::{dotted_aliases, name_aliases, read_dotted};
use crate::statements::found::{ReadAliases, ReadDots, ReadStatement};
use pylex_listing::Exact;
use pyparse_nodes::{Stop, append, is_op, is_word, terminal_at};
use pyplaces::Recorder;
use pytoken::{Keyword, Terminal};
use pytree_node::{Alias, Identifier, Stmt};
use std::alloc::Global;

/// How many dots a terminal stands for.
fn dots_in(t: Terminal) -> u64
    ensures { result ≡ dots_in (terminal t.entry) }
{
    match t {
        Terminal::Op(sign) => match sign {
            Exact::Dot => 1,
            Exact::Ellipsis => 3,
            _ => 0,
        },
        _ => 0,
    }
}

/// How many dots the terminal at a place stands for.
fn dots_at(tokens: &[Terminal], at: usize) -> u64
    ensures is { result ≡ dots_at (seen tokens.now at) }
    ensures within { 0 < result → at < length tokens.now }
{
    match terminal_at(tokens, at) {
        Some(t) => dots_in(t),
        None => 0,
    }
}

/// The dots in front of a module.
fn read_dots(tokens: &[Terminal], at: usize) -> Result<ReadDots, Stop>
    requires { at ≤ length tokens.now }
    ensures { PartAnswered tokens.now at (line.read_dots (seen tokens.now at)) (λ r. r.count)
        (λ r. r.next) result }
{
    let mut count: u64 = 0;
    let mut next = at;
    'more: loop {
        let more = dots_at(tokens, next);
        if more == 0 {
            return Ok(ReadDots { count, next });
        }
        // No memory holds so many dots.
        count = count.checked_add(more).ok_or(Stop::Memory)?;
        next += 1;
    }
}

/// A `*`, as the name of an import.
fn star(alloc: Global) -> Result<Alias, Stop>
    ensures { MatchResult result (λ a. alias_of a ≡ forms.alias (asterisk ∷ []) None)
        (λ s. s ≡ Stop.Memory) }
{
    let name = Identifier::new(alloc, "*")?;
    Ok(Alias { name, asname: None })
}

/// The `*` of an import.
#[tactic(auto, using(crate::proofs::statements::ImportSteps::alias_pushed))]
fn star_alias(alloc: Global, next: usize) -> Result<ReadAliases, Stop>
    ensures names { MatchResult result
        (λ r. map alias_of r.aliases.items ≡ forms.alias (asterisk ∷ []) None ∷ [])
        (λ s. s ≡ Stop.Memory) }
    ensures next { MatchResult result (λ r. r.next ≡ next) (λ s. s ≡ Stop.Memory) }
{
    let alias = star(alloc)?;
    let mut aliases = Vec::new(alloc);
    append(&mut aliases, alias)?;
    Ok(ReadAliases { aliases, next })
}

/// The names after the `import` of a `from`.
fn import_names<R: Recorder>(
    alloc: Global,
    tokens: &[Terminal],
    at: usize,
    recorder: &mut R,
) -> Result<ReadAliases, Stop>
    requires { at ≤ length tokens.now }
    ensures answered { PartAnswered tokens.now at (line.read_names (seen tokens.now at))
        (λ r. map alias_of r.aliases.items) (λ r. r.next) result }
    ensures placed { IfOk result (NamesPlaced R.after tokens.now at recorder.old recorder.new) }
{
    if is_op(tokens, at, Exact::Star) {
        recorder.node(at, at + 1)?;
        return star_alias(alloc, at + 1);
    }
    if !is_op(tokens, at, Exact::LPar) {
        return name_aliases(alloc, tokens, at, false, recorder);
    }
    let names = name_aliases(alloc, tokens, at + 1, true, recorder)?;
    if !is_op(tokens, names.next, Exact::RPar) {
        return Err(Stop::NoForm);
    }
    Ok(ReadAliases {
        aliases: names.aliases,
        next: names.next + 1,
    })
}

/// After the `import` of a `from`, with the module and the dots in front of it.
#[tactic(auto, using(pytree_node::proofs::Callers::StmtShapes::import_from_tree))]
fn import_of<R: Recorder>(
    alloc: Global,
    tokens: &[Terminal],
    source: Option<Identifier>,
    level: u64,
    at: usize,
    recorder: &mut R,
) -> Result<ReadStatement, Stop>
    requires { at ≤ length tokens.now }
    ensures answered { PartAnswered tokens.now at (line.import_of source level (seen tokens.now at))
        (λ r. stmt_of r.statement) (λ r. r.next) result }
    ensures placed { IfOk result (ImportPlaced R.after source level tokens.now at recorder.old
        recorder.new) }
{
    let names = import_names(alloc, tokens, at, recorder)?;
    Ok(ReadStatement {
        statement: Stmt::ImportFrom {
            module: source,
            names: names.aliases,
            level,
        },
        height: 0,
        next: names.next,
    })
}

/// After a `from`.
pub(crate) fn import_from<R: Recorder>(
    alloc: Global,
    tokens: &[Terminal],
    at: usize,
    recorder: &mut R,
) -> Result<ReadStatement, Stop>
    requires { at ≤ length tokens.now }
    ensures answered { PartAnswered tokens.now at (line.import_from (seen tokens.now at))
        (λ r. stmt_of r.statement) (λ r. r.next) result }
    ensures placed { WordPlaced R.after Keyword.From tokens.now at recorder.old recorder.new result }
{
    let dots = read_dots(tokens, at)?;
    if is_word(tokens, dots.next, Keyword::Import) {
        if dots.count == 0 {
            return Err(Stop::NoForm);
        }
        return import_of(alloc, tokens, None, dots.count, dots.next + 1, recorder);
    }
    let source = read_dotted(alloc, tokens, dots.next)?;
    if !is_word(tokens, source.next, Keyword::Import) {
        return Err(Stop::NoForm);
    }
    import_of(
        alloc,
        tokens,
        Some(source.name),
        dots.count,
        source.next + 1,
        recorder,
    )
}

/// After an `import`.
#[tactic(auto, using(pytree_node::proofs::Callers::StmtShapes::import_tree))]
pub(crate) fn import<R: Recorder>(
    alloc: Global,
    tokens: &[Terminal],
    at: usize,
    recorder: &mut R,
) -> Result<ReadStatement, Stop>
    requires { at ≤ length tokens.now }
    ensures answered { PartAnswered tokens.now at
        (reader.and_then (line.commas_of line.dotted_alias line.always (seen tokens.now at))
        (λ names r. reader.Found (plain.Import names) r))
        (λ r. stmt_of r.statement) (λ r. r.next) result }
    ensures placed { WordPlaced R.after Keyword.Import tokens.now at recorder.old recorder.new
        result }
{
    let names = dotted_aliases(alloc, tokens, at, recorder)?;
    Ok(ReadStatement {
        statement: Stmt::Import {
            names: names.aliases,
        },
        height: 0,
        next: names.next,
    })
}
