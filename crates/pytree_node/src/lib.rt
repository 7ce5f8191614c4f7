//! The tree of a Python module: the classes of Python's module `ast`, as Rust types.
//!
//! Each class is a variant or a struct, with the names and the order of fields that `ast` gives
//! it. A few words differ, since they are words of Rust or of its library: the class `In` is
//! [`Comparison::Within`], `ExceptHandler` is [`Handler`] and its field `type` is `class`,
//! `withitem` is [`Item`], `match_case` is [`Case`]. The field `conversion` of a `FormattedValue`, a
//! number in `ast`, is a [`Conversion`]. The fields `type_comment` and `type_ignores` are always
//! empty in `ast` and don't stand here, nor do places.
//!
//! A tree is of Python 3.11 or of 3.12 ([`Profile`]): in one of 3.11 all lists `type_params` are
//! empty, and no statement is a `TypeAlias`. No tree of the plain language has a `Match`, a
//! `FormattedValue` or a `JoinedStr`. Trees are plain data: nothing here says that one is well
//! formed.
//!
//! The tree of `x = 1`:
//!
//! ```
//! fn assignment(alloc: Global) -> Result<Module, AllocError> {
//!     let target = Expr::Name {
//!         id: Identifier::new(alloc, "x")?,
//!         ctx: Context::Store,
//!     };
//!     let value = Expr::Constant {
//!         value: Constant::Int(Integer::new(alloc, 1)?),
//!     };
//!     let statement = Stmt::Assign {
//!         targets: vec![in alloc; target]?,
//!         value,
//!     };
//!     Ok(Module {
//!         body: vec![in alloc; statement]?,
//!     })
//! }
//! ```
//!
//! Contracts speak of trees as values with no addresses: `specs/Trees` has those, and
//! `specs/TreeOf` the value of each node here. Two trees are equal where their values are.
#![tactic(auto)]

mod constants;
mod expressions;
mod identifiers;
mod integers;
mod modules;
mod operators;
mod patterns;
mod points;
mod profiles;
mod statements;

pub use constants::Constant;
pub use expressions::{
    Arg, Arguments, Call, Compare, Comprehension, Dict, DictComp, Expr, Keyword, Slice,
};
pub use identifiers::Identifier;
pub use integers::Integer;
pub use modules::Module;
pub use operators::{BoolOperator, Comparison, Context, Operator, UnaryOperator};
pub use patterns::Pattern;
pub use points::Points;
pub use profiles::{Extent, Profile, Version};
pub use pyfstring::Conversion;
pub use statements::{Alias, Case, ClassDef, FunctionDef, Handler, Item, Stmt, Try, TypeParam};
