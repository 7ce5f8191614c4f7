//! Lists the functions that a Python source on the standard input defines, at any depth. The line
//! `2: area/3` is of a function `area` with three parameters, whose `def` is in row 2.
#![tactic(auto)]

use examples::functions;
use pyast_fault::{Fault, tell};
use pyparse::{parse, tokens_of};
use pysource::{Counted, Source, decode_vec, read_all, write_all};
use pytree::{Arguments, Extent, Profile, Version};
use std::alloc::Global;
use std::process::ExitCode;

/// The whole language of Python 3.11.
const LANGUAGE: Profile = Profile {
    version: Version::Py311,
    extent: Extent::Whole,
};

/// How many parameters a function has: `*args` is one, and so is `**kwargs`.
fn parameter_count(args: &Arguments) -> usize {
    let named = args.posonlyargs.len().saturating_add(args.args.len());
    named
        .saturating_add(args.kwonlyargs.len())
        .saturating_add(usize::from(args.vararg.is_some()))
        .saturating_add(usize::from(args.kwarg.is_some()))
}

/// A line for each function of a source. The first token `def` is that of the first function, and
/// so on, since `def` is a keyword that begins nothing else.
fn listed(alloc: Global, source: &Source) -> Result<String, Fault> {
    let tree = parse(alloc, source, LANGUAGE)?;
    let found = functions(alloc, &tree)?;
    let tokens = tokens_of(alloc, source, LANGUAGE.extent)?;
    let defs = tokens.iter().filter(|token| token.text == "def");
    let mut lines = String::new(alloc);
    for (def, function) in defs.zip(found.iter()) {
        let (row, name) = (def.start.row, function.name.as_str());
        let line = format!(in alloc; "{row}: {name}/{}\n", parameter_count(&function.args))?;
        lines.push_str(line.as_str())?;
    }
    Ok(lines)
}

/// Reads the source, and writes the list.
fn run(rt: &HostRuntime) -> Result<(), Fault> {
    let bytes = read_all(rt.alloc(), &mut Counted::new(rt.stdin()))?;
    let source = decode_vec(rt.alloc(), bytes)?;
    let lines = listed(rt.alloc(), &source)?;
    write_all(&mut Counted::new(rt.stdout()), lines.as_bytes())?;
    Ok(())
}

fn main(rt: HostRuntime) -> ExitCode {
    let Err(fault) = run(&rt) else {
        return ExitCode::SUCCESS;
    };
    let mut errors = Counted::new(rt.stderr());
    ExitCode::from(tell(rt.alloc(), "<stdin>", fault, &mut errors).status())
}
