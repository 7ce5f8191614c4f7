//! What `docs/LIBRARY.md` quotes of the crate `examples`, each once where all goes well, and where
//! a source is at fault.

use crate::modules::module;
use crate::rows::{push, push_shown, source_of};
use examples::{
    INDENTED, assignment_text, count_names, described, dumped, first_comment, first_text,
    functions, kept, resumed, rewritten, spans_around, tree_of_bytes,
};
use pyparse::parse_placed;
use pysource::Counted;
use pytree_node::Profile;
use std::alloc::Global;
use std::process::Abort;

/// The rows.
pub(crate) const ROWS: &str = "
? counted => if x:\n    y = x  # one\n# two\n => 4 Some(\"# one\")
? counted => x = 1\n => 1 None
? gone-on pytok1 2 1 1 0 1 0 0 => x = 1\n => pytok1 2 1 1 0 1 0 0
? gone-on pytok1 2 2 1 0 1 0 0 => x = 1\n => AnotherSource
? gone-on pytok1 => x = 1\n => Text
? rewritten => x = (1)  # one\n \
  => x = 1\nModule(\n  body=[\n    Assign(\n      targets=[\n        Name(id='x', ctx=Store())],\n      value=Constant(value=1))],\n  type_ignores=[])
? around => x = ya + z\n => 3 Some(\"ya\")
? functions => def a(x):\n  class b:\n    async def c(): pass\nfor d in e:\n  def f(): pass\nelse:\n  def g(): pass\n \
  => \"a\" \"c\" \"f\" \"g\"
? functions => with a:\n  while b:\n    def c(): pass\n  else:\n    def d(): pass\ntry:\n  def e(): pass\nexcept f:\n  def g(): pass\nelse:\n  def h(): pass\nfinally:\n  def i(): pass\n \
  => \"c\" \"d\" \"e\" \"g\" \"h\" \"i\"
? functions => match a:\n case b:\n  def c(): pass\n case d:\n  if e: lambda: f\n  else:\n   async def g(): pass\n \
  => \"c\" \"g\"
? functions => x = lambda: 0\n =>\x20
? assigned => x => Some(\"x = 7\\n\")
? assigned => if => None
? told => x\ny = = 1\n => 2:0: invalid syntax";

/// How many names a source has, and its first comment.
pub(crate) fn counted(rt: &impl Abort, alloc: Global, out: &mut String, text: &str) {
    let source = source_of(rt, alloc, text);
    push_shown(rt, out, &count_names(alloc, &source).expect(rt, "memory"));
    let comment = first_comment(alloc, Counted::new(text.as_bytes())).expect(rt, "memory");
    push_shown(rt, out, &comment.as_deref());
}

/// The cursor of a listing that is resumed at a cursor, or why there is none.
pub(crate) fn gone_on(rt: &impl Abort, alloc: Global, out: &mut String, words: &str, text: &str) {
    let source = source_of(rt, alloc, text);
    match resumed(alloc, &source, words) {
        Ok(lister) => push(rt, out, kept(&lister).expect(rt, "memory").as_str()),
        Err(fault) => push_shown(rt, out, &fault),
    }
}

/// What is written of a source, and its dump.
pub(crate) fn rewrote(rt: &impl Abort, alloc: Global, out: &mut String, text: &str) {
    let source = source_of(rt, alloc, text);
    let text = rewritten(alloc, &source, Profile::PLAIN_311).expect(rt, "a text");
    push(rt, out, text.as_str());
    let dump = dumped(alloc, &source, INDENTED).expect(rt, "a text");
    push(rt, out, dump.as_str());
}

/// How many nodes stand around the byte 5 of a source, and the text of the innermost.
pub(crate) fn around(rt: &impl Abort, alloc: Global, out: &mut String, text: &str) {
    let source = source_of(rt, alloc, text);
    let placed = parse_placed(alloc, &source, Profile::PLAIN_311).expect(rt, "a module");
    let spans = spans_around(alloc, placed.places(), 5).expect(rt, "memory");
    push_shown(rt, out, &spans.as_slice().len());
    push_shown(rt, out, &first_text(&source, spans.as_slice()));
}

/// The names of the functions that a source defines.
pub(crate) fn defined(rt: &impl Abort, alloc: Global, out: &mut String, text: &str) {
    let tree = module(rt, alloc, text);
    let found = functions(alloc, &tree).expect(rt, "memory");
    for function in found.iter() {
        push_shown(rt, out, &function.name);
    }
}

/// The assignment of 7 to a name.
pub(crate) fn assigned(rt: &impl Abort, alloc: Global, out: &mut String, name: &str) {
    let text = assignment_text(alloc, name, 7).expect(rt, "memory");
    push_shown(rt, out, &text.as_deref());
}

/// What is wrong with a source.
pub(crate) fn told(rt: &impl Abort, alloc: Global, out: &mut String, text: &str) {
    assert!(rt; text.len() < 100);
    let fault = tree_of_bytes(alloc, text.as_bytes(), Profile::PLAIN_311).err();
    let told = described(alloc, fault.expect(rt, "a fault")).expect(rt, "memory");
    push(rt, out, told.as_str());
}
