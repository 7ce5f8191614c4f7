//! What is known of a source after some of its lines.

ghost use Rattle.std.specs.Prelude.{◌≡◌, ◌+◌, ◌++◌, ◌∷◌, [], List, ℕ, true, false, IfOk, IfErr, OnOk};
ghost use Rattle.pylex_listing.specs.Listing.{Source};
ghost use Rattle.pytree_node.specs.declared.profiles.Profile.{Profile};
ghost use Rattle.pytree_node.specs.TreeOf.{module_of};
ghost use Rattle.pytoken.specs.Inner.Following.{following};
ghost use Rattle.pygrammar.specs.Blocks.{Block};
ghost use Rattle.pygrammar.specs.Lines.{Line, line};
ghost use Rattle.pygrammar.specs.Refusals.{Accepted};
ghost use Rattle.pygrammar.specs.FormOf.{form_of};
ghost use Rattle.pyparse_block.specs.declared.blocks.Blocks.{Blocks};
ghost use Rattle.pyparse_block.specs.declared.outline.outlines.Outline.{Outline};
ghost use Rattle.pyparse_block.specs.Modules.{Refuses};
ghost use Rattle.pyparse_block.specs.Known.{is_sound, is_unread, IsSound, IsDeepAt, IsKnown, Comes};
ghost use Rattle.pyparse_block.specs.Known.{AwaitsBlocks, Meets};
ghost use Rattle.pyparse_block.specs.Known.{Closes, TellsFault, Fails};
ghost use Rattle.pyparse_block.specs.declared.known.Known.TheVariants.{Sound, Deep, Unread};

use crate::{BlockFault, BlockStop, Blocks, Outline};
use pygrammar::Form;
use pyparse_tokens::{GrammarError, ParseFault};
use pysource::Place;
use pytree_node::Module;
use std::alloc::{AllocError, Global};
use std::mem;

/// The error of lines that are no statements, by why they stop.
fn block_error(stop: BlockStop) -> Result<GrammarError, AllocError>
    ensures { IfOk result (TellsFault stop) }
{
    match stop {
        BlockStop::Faulty(fault) => Ok(match fault {
            BlockFault::ExpectedIndent => GrammarError::ExpectedIndent,
            BlockFault::UnexpectedIndent => GrammarError::UnexpectedIndent,
            BlockFault::MisplacedClause => GrammarError::MisplacedClause,
        }),
        BlockStop::Memory => Err(AllocError),
    }
}

/// What is known of a source after some of its logical lines: what they are, or the first refusal
/// among them. Of the kinds of refusals the last here comes first.
#[derive(Drop)]
pub enum Known {
    /// Each line has a form, none is faulty among the others, and no statement stands too deep.
    Sound { outline: Outline, blocks: Blocks },
    /// The first line in which a statement begins that stands too deep, by where it starts.
    Deep { outline: Outline, start: Place },
    /// The first line that is faulty among the others.
    Faulty { error: GrammarError, start: Place },
    /// The first line without a form.
    Unread { error: GrammarError, start: Place },
}

/// The module of sound lines, after the last one.
fn finish_sound(alloc: Global, blocks: Blocks, end: Place) -> Result<Module, ParseFault>
    ensures accepted { (profile : Profile) (s : Source) (k : ℕ) (forms : List Line)
        (outline : Outline) → IsSound profile s k forms outline blocks → Closes profile s k end
        → IfOk result (λ m. Accepted profile s (module_of m)) }
    ensures refused { (profile : Profile) (s : Source) (k : ℕ) (forms : List Line)
        (outline : Outline) → IsSound profile s k forms outline blocks → Closes profile s k end
        → IfErr result (Refuses profile s) }
    ensures block { (profile : Profile) (s : Source) (k : ℕ) (forms : List Line)
        (outline : Outline) → IsSound profile s k forms outline blocks
        → IfOk result (λ m. Block 0 forms (module_of m).body) }
{
    match blocks.finish(alloc) {
        Ok(body) => Ok(Module { body }),
        Err(stop) => Err(ParseFault::Grammar(block_error(stop)?, end)),
    }
}

/// The refusal of lines with a statement that stands too deep, after the last one.
fn finish_deep(outline: &Outline, deep: Place, end: Place) -> ParseFault
    ensures { (profile : Profile) (s : Source) (k : ℕ) (forms : List Line)
        → IsDeepAt profile s k forms outline.now deep → Closes profile s k end
        → Refuses profile s result }
{
    match outline.finish() {
        Ok(()) => ParseFault::Grammar(GrammarError::TooDeep, deep),
        Err(stop) => match block_error(stop) {
            Ok(error) => ParseFault::Grammar(error, end),
            Err(_) => ParseFault::Memory,
        },
    }
}

/// Lets a form go that isn't kept. It is never inlined, since a function pays at entry for the
/// locals of what it may drop.
#[cold]
#[inline(never)]
fn let_go(form: Form) {
    drop(form);
}

impl Known {
    /// Before the first line. It takes no memory.
    pub fn new(alloc: Global) -> Known
        ensures { (profile : Profile) (s : Source) → IsKnown profile s 0 [] result }
    {
        Known::Sound {
            outline: Outline::new(alloc),
            blocks: Blocks::new(alloc),
        }
    }

    /// Whether a line has no form. Nothing that follows is asked for one then.
    pub fn is_unread(&self) -> bool
        ensures { result ≡ is_unread self.now }
    {
        match self {
            Known::Sound {
                outline: _,
                blocks: _,
            } => false,
            Known::Deep {
                outline: _,
                start: _,
            } => false,
            Known::Faulty { error: _, start: _ } => false,
            Known::Unread { error: _, start: _ } => true,
        }
    }

    /// The line that starts here is the first one without a form.
    #[cold]
    #[inline(never)]
    pub fn refuse(&mut self, error: GrammarError, start: Place)
        ensures { self.new ≡ Unread error start }
    {
        *self = Known::Unread { error, start };
    }

    /// The line that starts here is the first one that is faulty among the others.
    #[cold]
    #[inline(never)]
    fn fail(&mut self, stop: BlockStop, start: Place) -> Result<(), AllocError>
        ensures { OnOk result (Fails stop start self.new) }
    {
        let error = block_error(stop)?;
        *self = Known::Faulty { error, start };
        Ok(())
    }

    /// The line that starts here, of lines that are sound else, is the first one in which a
    /// statement begins that stands too deep.
    #[cold]
    #[inline(never)]
    fn sink(&mut self, alloc: Global, start: Place)
        ensures { (outline : Outline) (blocks : Blocks) → self.old ≡ Sound outline blocks
            → self.new ≡ Deep outline start }
    {
        if let Known::Sound { outline, blocks: _ } = self {
            let outline = mem::replace(outline, Outline::new(alloc));
            *self = Known::Deep { outline, start };
        }
    }

    /// Takes the next line into the outline, and says whether statements grow by it: whether no line
    /// so far is faulty or too deep. Where they don't, all that the line changes is known.
    #[inline(always)]
    fn meet(
        &mut self,
        alloc: Global,
        level: usize,
        form: &Form,
        start: Place,
    ) -> Result<bool, AllocError>
        ensures known { (profile : Profile) (s : Source) (k : ℕ) (forms : List Line)
            → IsKnown profile s k forms self.old
            → Comes profile s k (following [] forms) (line level (form_of form.now)) start
            → IfOk result (Meets profile s k forms (line level (form_of form.now)) self.new) }
        ensures sound { IfOk result (λ grows. grows ≡ true → is_sound self.new ≡ true) }
    {
        match self {
            Known::Sound { outline, blocks: _ } => match outline.step(alloc, level, form) {
                Ok(false) => Ok(true),
                Ok(true) => {
                    self.sink(alloc, start);
                    Ok(false)
                }
                Err(stop) => {
                    self.fail(stop, start)?;
                    Ok(false)
                }
            },
            Known::Deep { outline, start: _ } => match outline.step(alloc, level, form) {
                Ok(_) => Ok(false),
                Err(stop) => {
                    self.fail(stop, start)?;
                    Ok(false)
                }
            },
            Known::Faulty { error: _, start: _ } => Ok(false),
            Known::Unread { error: _, start: _ } => Ok(false),
        }
    }

    /// Grows the statements by the next line, which the outline has.
    #[inline(always)]
    fn grow(
        &mut self,
        alloc: Global,
        level: usize,
        form: Form,
        start: Place,
    ) -> Result<(), AllocError>
        requires { is_sound self.old ≡ true }
        ensures { (profile : Profile) (s : Source) (k : ℕ) (forms : List Line)
            → AwaitsBlocks profile s k forms (line level (form_of form)) self.old
            → Comes profile s k (following [] forms) (line level (form_of form)) start
            → OnOk result (IsKnown profile s (k + 1)
            (forms ++ line level (form_of form) ∷ []) self.new) }
    {
        match self {
            Known::Sound { outline: _, blocks } => match blocks.step(alloc, level, form) {
                Ok(()) => Ok(()),
                Err(stop) => {
                    self.fail(stop, start)?;
                    Ok(())
                }
            },
            Known::Deep {
                outline: _,
                start: _,
            } => unreachable!(),
            Known::Faulty { error: _, start: _ } => unreachable!(),
            Known::Unread { error: _, start: _ } => unreachable!(),
        }
    }

    /// Takes the next line: into the outline, and then, where statements grow by it, into these.
    ///
    /// The form is passed on in two places alone, since a function clears room for each at entry.
    #[inline(always)]
    pub fn place(
        &mut self,
        alloc: Global,
        level: usize,
        form: Form,
        start: Place,
    ) -> Result<(), AllocError>
        ensures { (profile : Profile) (s : Source) (k : ℕ) (forms : List Line)
            → IsKnown profile s k forms self.old
            → Comes profile s k (following [] forms) (line level (form_of form)) start
            → OnOk result (IsKnown profile s (k + 1)
            (forms ++ line level (form_of form) ∷ []) self.new) }
    {
        let grows = self.meet(alloc, level, &form, start)?;
        if grows {
            return self.grow(alloc, level, form, start);
        }
        let_go(form);
        Ok(())
    }

    /// The module, or the first refusal, after the last line: where the source ends.
    pub fn finish(self, alloc: Global, end: Place) -> Result<Module, ParseFault>
        ensures accepted { (profile : Profile) (s : Source) (k : ℕ) (forms : List Line)
            → IsKnown profile s k forms self → Closes profile s k end
            → IfOk result (λ m. Accepted profile s (module_of m)) }
        ensures refused { (profile : Profile) (s : Source) (k : ℕ) (forms : List Line)
            → IsKnown profile s k forms self → Closes profile s k end
            → IfErr result (Refuses profile s) }

        // Of these forms, of which each line has one.
        ensures block { (profile : Profile) (s : Source) (k : ℕ) (forms : List Line)
            → IsKnown profile s k forms self
            → IfOk result (λ m. Block 0 forms (module_of m).body) }
        ensures read { IfOk result (λ m. is_unread self ≡ false) }
    {
        match self {
            Known::Sound { outline: _, blocks } => finish_sound(alloc, blocks, end),
            Known::Deep { outline, start } => Err(finish_deep(&outline, start, end)),
            Known::Faulty { error, start } => Err(ParseFault::Grammar(error, start)),
            Known::Unread { error, start } => Err(ParseFault::Grammar(error, start)),
        }
    }
}
