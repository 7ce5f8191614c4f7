//! The parameters of a lambda.

ghost use Rattle.std.specs.Prelude.{◌≡◌, ◌++◌, ◌∷◌, MatchResult, [], map};
ghost use Rattle.pytree_node.specs.TreeOf.{arg_of, arguments_of, boxed_of};
ghost use Rattle.pytree_node.specs.Trees.{optional};
ghost use Rattle.pygrammar.specs.Entries as entries;
ghost use Rattle.pygrammar.specs.Parameters.{no_arguments};
ghost use Rattle.pyparse_nodes.specs.Formals as formals;
ghost use Rattle.pyparse_nodes.specs.FormalStates.{IsDisarranged, entry_of, state_of};

use crate::Stop;
use crate::room::{append, put, put_option};
use pytree_node::{Arg, Arguments, Expr};
use std::alloc::Global;
use std::mem;

/// How far the parameters have come.
#[derive(Clone, Copy)]
pub enum Stage {
    /// Plain ones stood.
    Open,
    /// A `/` stood.
    Closed,
    /// A lone `*` stood, and a keyword-only one has to follow.
    Lone,
    /// A `*` stood.
    Starred,
    /// A `**` stood.
    Ended,
    /// One stood where it may not.
    Wrong,
}

/// The parameters so far.
#[derive(Drop)]
pub struct Formal {
    pub posonlyargs: Vec<Arg>,
    pub args: Vec<Arg>,
    pub vararg: Option<Arg>,
    pub kwonlyargs: Vec<Arg>,
    pub kw_defaults: Vec<Option<Expr>>,
    pub kwarg: Option<Arg>,
    pub defaults: Vec<Expr>,
    pub stage: Stage,
    /// Whether a default stood before a star.
    pub defaulted: bool,
}

/// Appends a parameter.
#[tactic(auto, using(crate::proofs::FormalParameters::FormalSteps::pushed_arg))]
fn put_arg(args: &mut Vec<Arg>, arg: Arg) -> Result<(), Stop>
    ensures { MatchResult result
        (λ _. map arg_of args.new.items ≡ map arg_of args.old.items ++ (arg_of arg ∷ []))
        (λ s. s ≡ Stop.Memory) }
{
    append(args, arg)
}

/// A parameter, as it stands in the source.
#[derive(Drop)]
pub enum Parameter {
    /// One with no star, and its default.
    Plain(Arg, Option<Box<Expr>>),
    /// A `/`.
    Slashed,
    /// A lone `*`.
    Bare,
    /// A `*` and one.
    Gathered(Arg),
    /// A `**` and one.
    Collected(Arg),
}

impl Formal {
    /// No parameters.
    pub fn new(alloc: Global) -> Formal
        ensures { state_of result ≡ formals.start }
    {
        Formal {
            posonlyargs: Vec::new(alloc),
            args: Vec::new(alloc),
            vararg: None,
            kwonlyargs: Vec::new(alloc),
            kw_defaults: Vec::new(alloc),
            kwarg: None,
            defaults: Vec::new(alloc),
            stage: Stage::Open,
            defaulted: false,
        }
    }

    /// A `/`: what stood before it is positional only.
    fn add_slash(&mut self)
        ensures { state_of self.new ≡ formals.step (state_of self.old) entries.Slashed }
    {
        match self.stage {
            Stage::Open => if self.args.is_empty() {
                self.stage = Stage::Wrong;
            } else {
                mem::swap(&mut self.posonlyargs, &mut self.args);
                self.stage = Stage::Closed;
            },
            _ => self.stage = Stage::Wrong,
        }
    }

    /// A lone `*`.
    fn add_star(&mut self)
        ensures { state_of self.new ≡ formals.step (state_of self.old) entries.Bare }
    {
        self.stage = match self.stage {
            Stage::Open => Stage::Lone,
            Stage::Closed => Stage::Lone,
            _ => Stage::Wrong,
        };
    }

    /// A `*` and a parameter.
    fn add_gathered(&mut self, arg: Arg)
        ensures { state_of self.new
            ≡ formals.step (state_of self.old) (entries.Gathered (arg_of arg)) }
    {
        match self.stage {
            Stage::Open | Stage::Closed => {
                self.vararg = Some(arg);
                self.stage = Stage::Starred;
            }
            _ => self.stage = Stage::Wrong,
        }
    }

    /// A `**` and a parameter.
    fn add_collected(&mut self, arg: Arg)
        ensures { state_of self.new
            ≡ formals.step (state_of self.old) (entries.Collected (arg_of arg)) }
    {
        match self.stage {
            Stage::Open | Stage::Closed | Stage::Starred => {
                self.kwarg = Some(arg);
                self.stage = Stage::Ended;
            }
            _ => self.stage = Stage::Wrong,
        }
    }

    /// A keyword-only parameter, with its default.
    #[tactic(auto, using(crate::proofs::FormalParameters::FormalSteps::pushed_optional))]
    fn put_keyword_only(&mut self, arg: Arg, default: Option<Box<Expr>>) -> Result<(), Stop>
        ensures { MatchResult result
            (λ _. state_of self.new ≡ formals.keyworded (state_of self.old) (arg_of arg)
            (optional (boxed_of default)))
            (λ s. s ≡ Stop.Memory) }
    {
        put_arg(&mut self.kwonlyargs, arg)?;
        put_option(&mut self.kw_defaults, default)?;
        self.stage = Stage::Starred;
        Ok(())
    }

    /// A parameter in front of the star, with its default.
    #[tactic(auto, using(crate::proofs::Callers::Pushes::pushed))]
    fn put_plain(&mut self, arg: Arg, default: Option<Box<Expr>>) -> Result<(), Stop>
        ensures { MatchResult result
            (λ _. state_of self.new ≡ formals.plainly (state_of self.old) (arg_of arg)
            (optional (boxed_of default)))
            (λ s. s ≡ Stop.Memory) }
    {
        match default {
            Some(e) => {
                put_arg(&mut self.args, arg)?;
                put(&mut self.defaults, e)?;
                self.defaulted = true;
                Ok(())
            }
            None => {
                if self.defaulted {
                    self.stage = Stage::Wrong;
                    return Ok(());
                }
                put_arg(&mut self.args, arg)
            }
        }
    }

    /// A parameter with no star, with its default.
    fn add_plain(&mut self, arg: Arg, default: Option<Box<Expr>>) -> Result<(), Stop>
        ensures { MatchResult result
            (λ _. state_of self.new ≡ formals.step (state_of self.old)
            (entries.Plain (arg_of arg) (optional (boxed_of default))))
            (λ s. s ≡ Stop.Memory) }
    {
        match self.stage {
            Stage::Open => self.put_plain(arg, default),
            Stage::Closed => self.put_plain(arg, default),
            Stage::Lone => self.put_keyword_only(arg, default),
            Stage::Starred => self.put_keyword_only(arg, default),
            Stage::Ended => {
                self.stage = Stage::Wrong;
                Ok(())
            }
            Stage::Wrong => Ok(()),
        }
    }

    /// One parameter more.
    #[inline(never)]
    pub fn add(&mut self, parameter: Parameter) -> Result<(), Stop>
        ensures { MatchResult result
            (λ _. state_of self.new ≡ formals.step (state_of self.old) (entry_of parameter))
            (λ s. s ≡ Stop.Memory) }
    {
        match parameter {
            Parameter::Plain(arg, default) => return self.add_plain(arg, default),
            Parameter::Slashed => self.add_slash(),
            Parameter::Bare => self.add_star(),
            Parameter::Gathered(arg) => self.add_gathered(arg),
            Parameter::Collected(arg) => self.add_collected(arg),
        }
        Ok(())
    }
}

/// The node of the parameters.
#[tactic(auto, using(pytree_node::proofs::Callers::ExprShapes::expr_shapes))]
fn node_of(formal: Formal) -> Arguments
    ensures { arguments_of result ≡ formals.before (state_of formal) no_arguments }
{
    let Formal {
        posonlyargs,
        args,
        vararg,
        kwonlyargs,
        kw_defaults,
        kwarg,
        defaults,
        stage: _,
        defaulted: _,
    } = formal;
    Arguments {
        posonlyargs,
        args,
        vararg,
        kwonlyargs,
        kw_defaults,
        kwarg,
        defaults,
    }
}

/// The node of the parameters, if they may end here.
#[inline(never)]
pub fn arranged(formal: Formal) -> Result<Arguments, Stop>
    ensures { MatchResult result
        (λ a. formals.outcome (state_of formal) ≡ Some (arguments_of a))
        (λ s. IsDisarranged (state_of formal) s) }
{
    match formal.stage {
        Stage::Lone => Err(Stop::NoForm),
        Stage::Wrong => Err(Stop::NoForm),
        Stage::Open => Ok(node_of(formal)),
        Stage::Closed => Ok(node_of(formal)),
        Stage::Starred => Ok(node_of(formal)),
        Stage::Ended => Ok(node_of(formal)),
    }
}
