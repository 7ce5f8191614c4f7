//! The progress through the logical lines of a source: what is known of those so far, and where the
//! next one stands.

ghost use Rattle.std.specs.Prelude.{◌≡◌, ◌+◌, ◌++◌, ◌∷◌, [], ◌&&◌, ℕ, Bool, List, false, true, not};
ghost use Rattle.std.specs.Prelude.{IfOk, IfErr, OnOk};
ghost use Rattle.pylex_listing.specs.Listing.{Source, in_characters};
ghost use Rattle.pytree_node.specs.declared.profiles.Profile.{Profile};
ghost use Rattle.pytree_node.specs.TreeOf.{module_of};
ghost use Rattle.pytoken.specs.Inner.Following.{following};
ghost use Rattle.pytoken.specs.Tokens as tokens;
ghost use Rattle.pygrammar.specs.Blocks.{Block, is_match, kind_of, stands_in_match};
ghost use Rattle.pygrammar.specs.Forms.{is_whole};
ghost use Rattle.pygrammar.specs.FormOf.{form_of};
ghost use Rattle.pygrammar.specs.Lines.{Line, line};
ghost use Rattle.pygrammar.specs.Refusals.{terminals, is_left_out, Accepted, Unread};
ghost use Rattle.pyparse_line.specs.Lines.{Refused};
ghost use Rattle.pyparse_tokens.specs.LineReadings.{HoldsLine};
ghost use Rattle.pyparse_block.specs.Modules.{code_of, Refuses};
ghost use Rattle.pyparse_block.specs.Known.{is_unread, Closes, Comes};
ghost use Rattle.pyparse.specs.Inner.Progressing.{IsProgress};
ghost use Rattle.pyparse.specs.Inner.Reading.{Holds, Reads};

use pygrammar::{Form, Header};
use pyparse_block::{Known, LastLines};
use pyparse_expr::Expressions;
use pyparse_line::{FormRead, read_line};
use pyparse_nodes::Stop;
use pyparse_tokens::{GrammarError, LogicalLines, ParseFault};
use pyplaces::{Ignored, Recorder};
use pysource::Place;
use pytree_node::{Extent, Module, Profile};
use std::alloc::{AllocError, Global};

/// Whether a line that looks like the header of a `match` is refused for it: in the extent of the
/// language that has none.
fn is_left_out(profile: Profile, like_match: bool) -> bool
    ensures { result ≡ (not (is_whole profile.extent) && like_match) }
{
    match profile.extent {
        Extent::Plain => like_match,
        Extent::Whole => false,
    }
}

/// The error of a line that has no form, by whether it looks like what the language leaves out.
fn line_error(stop: Stop, left_out: bool) -> Result<GrammarError, AllocError>
    ensures { (profile : Profile) (inside : Bool) (x : tokens.Line)
        → Refused stop profile inside (terminals x) → left_out ≡ is_left_out profile x
        → IfOk result (λ e. Unread profile inside x (code_of e)) }
{
    match stop {
        Stop::NoForm => Ok(if left_out {
            GrammarError::MatchStatement
        } else {
            GrammarError::Syntax
        }),
        Stop::TooDeep => Ok(GrammarError::TooDeep),
        Stop::Memory => Err(AllocError),
    }
}

/// Whether a line is the header of a `match`, by its form.
fn is_match(form: &Form) -> bool
    ensures { result ≡ is_match (kind_of (form_of form.now)) }
{
    match form {
        Form::Headed { header, suite: _ } => matches!(header, Header::Match { .. }),
        _ => false,
    }
}

/// What is known of a source after some of its logical lines, and where the next one stands.
#[derive(Drop)]
pub(crate) struct Progress {
    known: Known,
    last_lines: LastLines,
}

impl Progress {
    /// Before the first line. It takes no memory.
    pub(crate) fn new(alloc: Global) -> Progress
        ensures { (profile : Profile) (s : Source) → Holds profile s 0 [] result }
    {
        Progress {
            known: Known::new(alloc),
            last_lines: LastLines::new(alloc),
        }
    }

    /// Whether a line has no form. Nothing that follows is asked for one then.
    pub(crate) fn is_unread(&self) -> bool
        ensures { result ≡ is_unread self.now.known }
    {
        self.known.is_unread()
    }

    /// The form of the next line, which is held, at its place, where all before it have one. Where
    /// it has none, that is known then. Where its nodes stand is recorded.
    pub(crate) fn read<R: Recorder + Drop>(
        &mut self,
        alloc: Global,
        lines: &LogicalLines<'_>,
        profile: Profile,
        recorder: &mut R,
    ) -> Result<Option<FormRead>, AllocError>
        requires { is_unread self.old.known ≡ false }
        ensures { (k : ℕ) (forms : List Line) → HoldsLine (in_characters lines.now.source) k lines.now
            → Holds profile (in_characters lines.now.source) k forms self.old
            → IfOk result (Reads R.after R.recorded_count profile
            (in_characters lines.now.source) k forms lines.now.level lines.now.start self.old self.new
            recorder.old recorder.new) }
    {
        let inside = self.last_lines.inside(lines.level());
        match read_line::<Expressions, R>(alloc, lines.terminals(), profile, inside, recorder) {
            Ok(read) => Ok(Some(read)),
            Err(stop) => {
                self.refuse(lines, profile, stop)?;
                Ok(None)
            }
        }
    }

    /// The next line, which is held, has no form where it stands.
    #[cold]
    #[inline(never)]
    fn refuse(
        &mut self,
        lines: &LogicalLines<'_>,
        profile: Profile,
        stop: Stop,
    ) -> Result<(), AllocError>
        requires { is_unread self.old.known ≡ false }
        ensures { (inside : Bool) (k : ℕ) (forms : List Line)
            → HoldsLine (in_characters lines.now.source) k lines.now
            → Holds profile (in_characters lines.now.source) k forms self.old
            → inside ≡ stands_in_match lines.now.level (following [] forms)
            → Refused stop profile inside lines.now.terminals
            → OnOk result ((is_unread self.new.known ≡ true)
            × Holds profile (in_characters lines.now.source) (k + 1) forms self.new) }
    {
        let error = line_error(stop, is_left_out(profile, lines.is_match()))?;
        self.known.refuse(error, lines.start());
        Ok(())
    }

    /// The next line, by its form, which was found at its place.
    #[inline(always)]
    pub(crate) fn keep(
        &mut self,
        alloc: Global,
        level: usize,
        form: Form,
        start: Place,
    ) -> Result<(), AllocError>
        ensures { (profile : Profile) (s : Source) (k : ℕ) (forms : List Line)
            → Holds profile s k forms self.old
            → Comes profile s k (following [] forms) (line level (form_of form)) start
            → OnOk result (Holds profile s (k + 1)
            (forms ++ line level (form_of form) ∷ []) self.new) }
    {
        let opens_match = is_match(&form);
        self.known.place(alloc, level, form, start)?;
        self.last_lines.step(level, opens_match)?;
        Ok(())
    }

    /// The next line, which is held. Where a line has no form, none after it is asked for one.
    pub(crate) fn take(
        &mut self,
        alloc: Global,
        lines: &LogicalLines<'_>,
        profile: Profile,
    ) -> Result<(), AllocError>
        ensures { (k : ℕ) → HoldsLine (in_characters lines.now.source) k lines.now
            → IsProgress profile (in_characters lines.now.source) k self.old
            → OnOk result (IsProgress profile (in_characters lines.now.source) (k + 1) self.new) }
    {
        if self.is_unread() {
            return Ok(());
        }
        let read = match self.read(alloc, lines, profile, &mut Ignored)? {
            Some(read) => read,
            None => return Ok(()),
        };
        let level = lines.level();
        self.keep(alloc, level, read.form, lines.start())?;
        Ok(())
    }

    /// The module, or the first refusal, after the last line: where the source ends.
    pub(crate) fn finish(self, alloc: Global, end: Place) -> Result<Module, ParseFault>
        ensures accepted { (profile : Profile) (s : Source) (k : ℕ) → IsProgress profile s k self
            → Closes profile s k end → IfOk result (λ m. Accepted profile s (module_of m)) }
        ensures refused { (profile : Profile) (s : Source) (k : ℕ) → IsProgress profile s k self
            → Closes profile s k end → IfErr result (Refuses profile s) }
        ensures block { (profile : Profile) (s : Source) (k : ℕ) (forms : List Line)
            → Holds profile s k forms self
            → IfOk result (λ m. Block 0 forms (module_of m).body) }
        ensures read { IfOk result (λ m. is_unread self.known ≡ false) }
    {
        let Progress {
            known,
            last_lines: _,
        } = self;
        known.finish(alloc, end)
    }
}
