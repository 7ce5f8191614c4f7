//! Where a row of literals and f-strings ends.

ghost use Rattle.std.specs.Prelude.{◌≡◌, ◌+◌, ◌<◌, drop, map};
ghost use Rattle.pyplaces.specs.RowEnds as rows;
ghost use Rattle.pyplaces.specs.RowEnds.{row_length};
ghost use Rattle.pytoken.specs.TerminalOf.{terminal};

use pytoken::Terminal;

/// One f-string less.
#[tactic(auto, using(crate::proofs::RowWalks::closed_none, crate::proofs::RowWalks::closed_some))]
fn closed(depth: usize) -> Option<usize>
    ensures { result ≡ rows.closed depth }
{
    if depth == 0 { None } else { Some(depth - 1) }
}

/// No f-string less, if there is one.
#[tactic(auto, using(crate::proofs::RowWalks::inside_none, crate::proofs::RowWalks::inside_some))]
fn inside(depth: usize) -> Option<usize>
    ensures { result ≡ rows.inside depth }
{
    if depth == 0 { None } else { Some(depth) }
}

/// Within how many f-strings a row goes on after a terminal that stands within `depth` of them, if
/// it goes on.
fn depth_following(depth: usize, t: Terminal) -> Option<usize>
    requires { depth < usize.MAX }
    ensures { result ≡ rows.depth_following depth (terminal t.entry) }
{
    match t {
        Terminal::FormattedBegin => Some(depth + 1),
        Terminal::Literal(_) => Some(depth),
        Terminal::FormattedEnd => closed(depth),
        _ => inside(depth),
    }
}

/// The place after a row, from a place within its first f-string on.
pub(crate) fn row_end(tokens: &[Terminal], at: usize) -> usize
    ensures { result ≡ at + row_length 1 (drop at (map terminal tokens.now)) }
{
    let mut depth: usize = 1;
    let mut next = at;
    'row: while next < tokens.len() {
        match depth_following(depth, tokens[next]) {
            Some(following) => {
                depth = following;
                next += 1;
            }
            None => return next,
        }
    }
    next
}
