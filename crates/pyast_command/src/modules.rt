//! The module of a source, which is read whole.
ghost use Rattle.std.specs.Prelude.{◌≡◌, ◌+◌, ◌-◌, ◌^◌, ◌<◌, ◌≤◌, length, option_map, IfOk, IfErr};
ghost use Rattle.std.specs.Prelude.{if◌then◌else◌, true, Some, None};
ghost use Rattle.std.specs.Str.{encode_utf8_all};
ghost use Rattle.pysource.specs.Limits.{source_limit};
ghost use Rattle.pysource.specs.Sources.{source_of, UnlessMemory};
ghost use Rattle.pylex_listing.specs.Laws.{IsLawful};
ghost use Rattle.pylex_listing.specs.Listing.{in_characters};
ghost use Rattle.pytree_node.specs.TreeOf.{module_of};
ghost use Rattle.pyunparse_text.specs.Modules.{module_text};
ghost use Rattle.pyunparse.specs.RoundTrips.{GivesBack};
ghost use Rattle.pyast_command.specs.Modules.{HasPlaces, IsModule};
ghost use Rattle.pyast_command.specs.Inner.Reading.{Keeps, Refuses, ReadsModule, ReadsNone};
ghost use Rattle.pyast_command.specs.Inner.Reading.{ReadsPlaced};

use pyast_fault::Fault;
use pylex::Lister;
use pyparse::{Placed, parse, parse_placed};
use pysource::{ByteIn, Source, SourceFault, decode, decode_vec, read_all};
use pytree_node::{Module, Profile};
use std::alloc::Global;

/// What is kept of a source that is read whole: its bytes, where the row of a fault is to be shown.
#[derive(Drop)]
pub(crate) struct Kept {
    show: bool,
    bytes: Vec<u8>,
}

impl Kept {
    /// Nothing as yet.
    pub(crate) fn new(alloc: Global, show: bool) -> Kept
        ensures { result.show ≡ show }
    {
        Kept {
            show,
            bytes: Vec::new(alloc),
        }
    }

    /// The source that bytes are, which are kept where they are to be shown.
    fn decode(&mut self, alloc: Global, bytes: Vec<u8>) -> Result<Source, SourceFault>
        requires { length bytes.items ≤ source_limit }
        ensures value { UnlessMemory result (source_of bytes.items) }
        ensures keeps { self.old.show ≡ true → self.new.bytes.items ≡ bytes.items }
        ensures same { self.new.show ≡ self.old.show }
    {
        if self.show {
            self.bytes = bytes;
            decode(alloc, self.bytes.as_slice())
        } else {
            decode_vec(alloc, bytes)
        }
    }

    /// The bytes, where they are to be shown.
    pub(crate) fn shown(&self) -> Option<&[u8]>
        ensures { option_map (λ bytes. bytes.now) result
            ≡ (if self.now.show then Some self.now.bytes.items else None) }
    {
        if self.show {
            Some(self.bytes.as_slice())
        } else {
            None
        }
    }
}

/// Makes it known that the listing of a source is lawful, as the start of a lister says.
fn know_listing(alloc: Global, source: &Source)
    ensures { IsLawful (in_characters source.now) }
{
    let _ = Lister::new(alloc, source);
}

/// The module that bytes are as a source. Its own text gives it back.
fn accept(alloc: Global, bytes: Vec<u8>, profile: Profile, kept: &mut Kept) -> Result<Module, Fault>
    requires { length bytes.items ≤ source_limit }
    ensures is { IfOk result (λ m. IsModule profile bytes.items (module_of m)) }
    ensures back { IfOk result
        (λ m. GivesBack profile (encode_utf8_all (module_text (module_of m))) (module_of m)) }
    ensures refused { IfErr result (Refuses profile bytes.items) }
    ensures keeps { kept.old.show ≡ true → kept.new.bytes.items ≡ bytes.items }
    ensures same { kept.new.show ≡ kept.old.show }
{
    let source = kept.decode(alloc, bytes)?;
    know_listing(alloc, &source);
    Ok(parse(alloc, &source, profile)?)
}

/// The module that bytes are as a source, and where its nodes stand.
fn accept_placed(
    alloc: Global,
    bytes: Vec<u8>,
    profile: Profile,
    kept: &mut Kept,
) -> Result<Placed, Fault>
    requires { length bytes.items ≤ source_limit }
    ensures is { IfOk result (λ p. IsModule profile bytes.items (module_of p.module)) }
    ensures places { IfOk result
        (λ p. HasPlaces profile bytes.items (module_of p.module) p.places) }
    ensures refused { IfErr result (Refuses profile bytes.items) }
    ensures keeps { kept.old.show ≡ true → kept.new.bytes.items ≡ bytes.items }
    ensures same { kept.new.show ≡ kept.old.show }
{
    let source = kept.decode(alloc, bytes)?;
    know_listing(alloc, &source);
    Ok(parse_placed(alloc, &source, profile)?)
}

/// The module of what a reader gives, which is read whole: a failed read comes before a fault of
/// the source.
pub(crate) fn read_module<R: ByteIn>(
    alloc: Global,
    profile: Profile,
    reader: &mut R,
    kept: &mut Kept,
) -> Result<Module, Fault>
    requires { (R.seen reader.old).failures < 2 ^ 64 - 1 }
    ensures reads { IfOk result
        (λ m. ReadsModule profile (R.seen reader.old) (R.seen reader.new) (module_of m)) }
    ensures back { IfOk result
        (λ m. GivesBack profile (encode_utf8_all (module_text (module_of m))) (module_of m)) }
    ensures none { IfErr result (ReadsNone profile (R.seen reader.old) (R.seen reader.new)) }
    ensures keeps { IfErr result (λ fault. kept.old.show ≡ true
        → Keeps profile (R.seen reader.old) (R.seen reader.new) kept.new.bytes.items fault) }
    ensures same { kept.new.show ≡ kept.old.show }
{
    let bytes = read_all(alloc, reader)?;
    accept(alloc, bytes, profile, kept)
}

/// The same, with where its nodes stand.
pub(crate) fn read_placed<R: ByteIn>(
    alloc: Global,
    profile: Profile,
    reader: &mut R,
    kept: &mut Kept,
) -> Result<Placed, Fault>
    requires { (R.seen reader.old).failures < 2 ^ 64 - 1 }
    ensures reads { IfOk result (λ p. ReadsPlaced profile (R.seen reader.old)
        (R.seen reader.new) (module_of p.module) p.places) }
    ensures none { IfErr result (ReadsNone profile (R.seen reader.old) (R.seen reader.new)) }
    ensures keeps { IfErr result (λ fault. kept.old.show ≡ true
        → Keeps profile (R.seen reader.old) (R.seen reader.new) kept.new.bytes.items fault) }
    ensures same { kept.new.show ≡ kept.old.show }
{
    let bytes = read_all(alloc, reader)?;
    accept_placed(alloc, bytes, profile, kept)
}

/// Leaves a module to the end of the process. A run is the last act of its program, and to free the
/// tree node by node takes a tenth of the time of `dump` and a seventh of that of `unparse`.
pub(crate) fn leave_to_exit(module: Module) {
    std::mem::forget(module);
}
