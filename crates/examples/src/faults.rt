//! What is reported of a source that has no tree.

ghost use Rattle.std.specs.Prelude.{◌≡◌, ◌≤◌, length, IfOk, IfErr, string_bytes};
ghost use Rattle.pysource.specs.Limits.{source_limit};
ghost use Rattle.pytree_node.specs.TreeOf.{module_of};
ghost use Rattle.examples.specs.Faults.{IsFaultOf, placed, words};
ghost use Rattle.examples.specs.Trees.{IsTreeOf};

use pyast_fault::{Fault, FaultCode, fault_text};
use pyparse::{ParseFault, parse};
use pysource::decode;
use pytree::{Module, Profile};
use std::alloc::{AllocError, Global};

/// What stands at a place.
fn placed(alloc: Global, row: usize, column: usize, text: &str) -> Result<String, AllocError>
    ensures { IfOk result (λ line. string_bytes line ≡ placed row column text.now) }
{
    format!(in alloc; "{row}:{column}: {text}")
}

/// The tree of some bytes. Each layer's fault becomes the one that the program reports.
pub fn tree_of_bytes(alloc: Global, bytes: &[u8], profile: Profile) -> Result<Module, Fault>
    requires { length bytes.now ≤ source_limit }
    ensures tree { IfOk result (λ tree. IsTreeOf profile bytes.now (module_of tree)) }
    ensures fault { IfErr result (IsFaultOf profile bytes.now) }
{
    let source = decode(alloc, bytes)?;
    Ok(parse(alloc, &source, profile)?)
}

/// Where a source is at fault, and how, as `3:4: invalid syntax`.
pub fn described(alloc: Global, fault: Fault) -> Result<String, AllocError>
    ensures { IfOk result (λ text. string_bytes text ≡ words fault) }
{
    match fault {
        Fault::InSource(code, place) => {
            let text = fault_text(FaultCode::Source(code));
            placed(alloc, place.row, place.column, text)
        }
        Fault::Plain(code) => String::from_str(alloc, fault_text(FaultCode::Run(code))),
    }
}
