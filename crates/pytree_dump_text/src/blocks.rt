//! Which statements with blocks stand on one line.

ghost use Rattle.std.specs.Prelude.{◌≡◌, ◌||◌, List, Option, codes, ℕ};
ghost use Rattle.pytree_dump_text.specs.Blocks.{bare_option, listed, shown_block, shown_matched};
ghost use Rattle.pytree_dump_text.specs.Layout.{is_flat, is_short};
ghost use Rattle.pytree_dump_text.specs.Shows.{Row, a_field, expr_field, left_out, name_field};
ghost use Rattle.pytree_dump_text.specs.Shows.{no_field, no_shown, shown, shown_item};
ghost use Rattle.pytree_dump_text.specs.Shows.{shown_pattern};
ghost use Rattle.pytree_node.specs.TreeOf.{item_of, option_of, pattern_of, tree_of};

use crate::lines::is_flat;
use crate::patterns::is_bare_pattern;
use crate::shortness::is_bare;
use crate::styles::Style;
use pytree_node::{Case, Expr, Item, Pattern, Stmt};

/// Whether a module stands on one line.
#[tactic(auto, using(crate::proofs::ShortLemmas::short_module))]
pub fn is_short_module(style: Style, body: &[Stmt]) -> bool
    ensures { result
        ≡ (is_flat style.indent || is_short
        (a_field (codes "body") (shown_block style.profile body.now)
        (a_field (codes "type_ignores") (Row no_shown) no_field))) }
{
    is_flat(style) || body.is_empty()
}

/// Whether a `while` or an `if` stands on one line.
#[tactic(auto, using(crate::proofs::ShortLemmas::short_test))]
pub fn is_short_test(style: Style, test: &Expr, body: &[Stmt], orelse: &[Stmt]) -> bool
    ensures { result
        ≡ (is_flat style.indent || is_short (a_field (codes "test") (shown (tree_of test.now))
        (a_field (codes "body") (shown_block style.profile body.now)
        (a_field (codes "orelse") (shown_block style.profile orelse.now) no_field)))) }
{
    is_flat(style) || is_bare(test) && body.is_empty() && orelse.is_empty()
}

/// Whether a `with` stands on one line.
#[tactic(auto, using(crate::proofs::ShortLemmas::short_with))]
pub fn is_short_with(style: Style, items: &[Item], body: &[Stmt]) -> bool
    ensures { result
        ≡ (is_flat style.indent || is_short
        (a_field (codes "items") (listed (λ item. shown_item (item_of item)) items.now)
        (a_field (codes "body") (shown_block style.profile body.now) (left_out no_field)))) }
{
    is_flat(style) || items.is_empty() && body.is_empty()
}

/// Whether an expression is absent or shows no field.
fn is_bare_option(e: &Option<Expr>) -> bool
    ensures { result ≡ bare_option (option_of e.now) }
{
    match e {
        None => true,
        Some(e) => is_bare(e),
    }
}

/// Whether a handler stands on one line. A name is simple.
#[tactic(auto, using(crate::proofs::ShortLemmas::short_handler))]
pub fn is_short_handler(style: Style, class: &Option<Expr>, body: &[Stmt]) -> bool
    ensures { (name : Option (List ℕ))
        → result ≡ (is_flat style.indent || is_short
        (expr_field (codes "type") (option_of class.now)
        (name_field (codes "name") name
        (a_field (codes "body") (shown_block style.profile body.now) no_field)))) }
{
    is_flat(style) || is_bare_option(class) && body.is_empty()
}

/// Whether a `match` stands on one line.
#[tactic(auto, using(crate::proofs::ShortLemmas::short_match))]
pub fn is_short_match(style: Style, subject: &Expr, cases: &[Case]) -> bool
    ensures { result
        ≡ (is_flat style.indent || is_short
        (a_field (codes "subject") (shown (tree_of subject.now))
        (a_field (codes "cases") (shown_matched style.profile cases.now) no_field))) }
{
    is_flat(style) || is_bare(subject) && cases.is_empty()
}

/// Whether a case stands on one line.
#[tactic(auto, using(crate::proofs::ShortLemmas::short_case))]
pub fn is_short_case(style: Style, pattern: &Pattern, guard: &Option<Expr>, body: &[Stmt]) -> bool
    ensures { result
        ≡ (is_flat style.indent || is_short
        (a_field (codes "pattern") (shown_pattern (pattern_of pattern.now))
        (expr_field (codes "guard") (option_of guard.now)
        (a_field (codes "body") (shown_block style.profile body.now) no_field)))) }
{
    is_flat(style) || is_bare_pattern(pattern) && is_bare_option(guard) && body.is_empty()
}
