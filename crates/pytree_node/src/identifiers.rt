//! The names of a program.

ghost use Rattle.std.specs.Prelude.{◌≡◌, ◌≤◌, length, nat_eq, IfOk, IsOk};
ghost use Rattle.std.specs.Str.{chars, encode_utf8_all};
ghost use Rattle.std.specs.Cmp.{partial_equiv_from_equiv};
ghost use Rattle.std.specs.Cmp.Lexicographic.{pointwise, nat_list_eq_equiv};

use std::alloc::{AllocError, Global};
use std::fmt;
use std::marker::Model;
use std::string::String;

/// How many bytes of a text are kept with no allocation.
const INLINE_LEN: usize = 14;

/// A name of a program: a variable's, a module's with its dots, or `*` in an import.
///
/// A contract sees it as the list of its characters. A name of at most 14 bytes of UTF-8 takes no
/// memory of its own. Nothing here says that a name is one by Python's rules.
#[derive(Drop)]
pub struct Identifier {
    text: Text,
}

/// A text, inline or in memory of its own.
#[derive(Drop)]
enum Text {
    Inline { len: u8, bytes: [u8; INLINE_LEN] },
    Allocated(Box<String>),
}

impl Model for Identifier {
    ghost use Rattle.std.specs.Prelude.{ℕ, List};

    ghost Value = { List ℕ };

    ghost use Rattle.std.specs.Str.{chars};
    ghost use Rattle.pytree_node.specs.Inner.Texts.{bytes_of, IsKept};

    ghost view = { λ name. chars (bytes_of name.text) };

    ghost invariant = { λ name. IsKept name.text };
}

/// The name of a text that is too long to stand inline.
#[cold]
#[inline(never)]
fn allocated(alloc: Global, text: &str) -> Result<Identifier, AllocError>
    ensures { IfOk result (λ made. made ≡ chars text.now) }
{
    Ok(Identifier {
        text: Text::Allocated(Box::new(alloc, String::from_str(alloc, text)?)?),
    })
}

impl Identifier {
    /// The name of this text.
    pub fn new(alloc: Global, text: &str) -> Result<Identifier, AllocError>
        ensures value { IfOk result (λ made. made ≡ chars text.now) }
        ensures inline { length text.now ≤ 14 → IsOk result }
    {
        if text.len() > INLINE_LEN {
            return allocated(alloc, text);
        }
        let mut bytes = [0; INLINE_LEN];
        bytes[..text.len()].copy_from_slice(text.as_bytes());
        Ok(Identifier {
            text: Text::Inline {
                len: text.len() as u8,
                bytes,
            },
        })
    }

    /// Its text.
    pub fn as_str(&self) -> &str
        ensures characters { chars result.now ≡ self.now }
        ensures bytes { result.now ≡ encode_utf8_all self.now }
    {
        match &self.text {
            // The invariant has it that these bytes are UTF-8.
            Text::Inline { len, bytes } => unsafe {
                std::str::from_utf8_unchecked(&bytes[..usize::from(*len)])
            },
            Text::Allocated(text) => text.as_str(),
        }
    }
}

impl Clone for Identifier {
    ghost is_clone = { λ name copy. copy ≡ name };

    fn clone(&self) -> Result<Identifier, AllocError> {
        let text = match &self.text {
            Text::Inline { len, bytes } => Text::Inline {
                len: *len,
                bytes: *bytes,
            },
            Text::Allocated(text) => Text::Allocated(text.clone()?),
        };
        Ok(Identifier { text })
    }
}

impl PartialEq for Identifier {
    ghost eq = { pointwise nat_eq };

    ghost laws = { partial_equiv_from_equiv nat_list_eq_equiv };

    fn eq(&self, other: &Identifier) -> bool {
        self.as_str() == other.as_str()
    }
}

impl Eq for Identifier {
    ghost laws = { nat_list_eq_equiv };
}

impl fmt::Debug for Identifier {
    fn fmt<W: fmt::Write>(&self, f: &mut fmt::Formatter<W>) -> fmt::Result {
        fmt::Debug::fmt(&self.as_str(), f)
    }
}
