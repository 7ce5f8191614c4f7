//! What a text of a body stands for but for its escapes (reference 2.4.3).

ghost use Rattle.std.specs.Prelude.{◌≡◌, IfOk};
ghost use Rattle.std.specs.Str.{chars};
ghost use Rattle.std.specs.String.{string_bytes};
ghost use Rattle.pyfstring.specs.Singles.{single};
ghost use Rattle.pyfstring.specs.Inner.Passing.{after_brace};

use crate::scanner::Scanner;
use crate::texts::is_brace;
use std::alloc::{AllocError, Global};

impl<'a> Scanner<'a> {
    /// Passes a brace, if one is next.
    fn pass_brace(&mut self)
        ensures { self.new ≡ after_brace self.old }
    {
        let Some(c) = self.peek() else {
            return;
        };
        if is_brace(c) {
            self.advance();
        }
    }
}

/// A text of a body with one brace for each two. Its escapes stay as they are.
pub fn single(alloc: Global, text: &str, is_raw: bool) -> Result<String, AllocError>
    ensures { IfOk result (λ out. chars (string_bytes out) ≡ single is_raw (chars text.now)) }
{
    let mut out = String::with_capacity(alloc, text.len())?;
    let mut left = Scanner::new(text);
    loop {
        let mut unit = left.again();
        if !left.pass_unit(is_raw, true) {
            return Ok(out);
        }
        unit.pass_brace();
        out.push_str(unit.until(&left))?;
    }
}
