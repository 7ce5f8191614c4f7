//! The cuts of f-strings, and the tokens of their fields: the calls of `pyfstring` and
//! `pyfstring_tokens`. Expected cuts were taken from a plain Python model that agrees with Python
//! 3.11, and those of the built program stand in `conformance/tables/fstring_cuts.txt`.

use crate::rows::{push, push_shown, push_told};
use pyfstring::{Manner, pieces, single};
use pyfstring_tokens::FieldTokens;
use std::alloc::Global;
use std::process::Abort;

/// The rows.
pub(crate) const ROWS: &str = "
? cut plain => a{x}b \
  => [Text(\"a\"), Field(Field { text: \"x\", kept: None, conversion: None, spec: None }), Text(\"b\")]
? cut plain => {x!s}{x!r}{x!a:>5} \
  => [Text(\"\"), Field(Field { text: \"x\", kept: None, conversion: Str, spec: None }), Text(\"\"), Field(Field { text: \"x\", kept: None, conversion: Repr, spec: None }), Text(\"\"), Field(Field { text: \"x\", kept: None, conversion: Ascii, spec: Some([Text(\">5\")]) }), Text(\"\")]
? cut plain => {x:>{w}.{p!r:3}} \
  => [Text(\"\"), Field(Field { text: \"x\", kept: None, conversion: None, spec: Some([Text(\">\"), Field(Field { text: \"w\", kept: None, conversion: None, spec: None }), Text(\".\"), Field(Field { text: \"p\", kept: None, conversion: Repr, spec: Some(\"3\") }), Text(\"\")]) }), Text(\"\")]
? cut plain => { x = !s} \
  => [Text(\"\"), Field(Field { text: \" x \", kept: Some(\" x = \"), conversion: Str, spec: None }), Text(\"\")]
? cut plain => {{} => Malformed: malformed f-string
? cut raw => {x:\\{y}} \
  => [Text(\"\"), Field(Field { text: \"x\", kept: None, conversion: None, spec: Some([Text(\"\\\\\"), Field(Field { text: \"y\", kept: None, conversion: None, spec: None }), Text(\"\")]) }), Text(\"\")]
? cut plain => \\N{DIGIT ONE} => [Text(\"\\\\N{DIGIT ONE}\")]
? cut plain => \\N{a{b}{x} \
  => [Text(\"\\\\N{a{b}\"), Field(Field { text: \"x\", kept: None, conversion: None, spec: None }), Text(\"\")]
? cut plain => \\N{no end {x => [Text(\"\\\\N{no end {x\")]
? cut plain => \\N}{x} \
  => [Text(\"\\\\N}\"), Field(Field { text: \"x\", kept: None, conversion: None, spec: None }), Text(\"\")]
? cut plain => \\Nx{x} \
  => [Text(\"\\\\Nx\"), Field(Field { text: \"x\", kept: None, conversion: None, spec: None }), Text(\"\")]
? cut plain => \\N => [Text(\"\\\\N\")]
? cut plain => \\N\\{x} \
  => [Text(\"\\\\N\\\\\"), Field(Field { text: \"x\", kept: None, conversion: None, spec: None }), Text(\"\")]
? cut plain => \\x4{x} \
  => [Text(\"\\\\x4\"), Field(Field { text: \"x\", kept: None, conversion: None, spec: None }), Text(\"\")]
? cut plain => \\ => [Text(\"\\\\\")]
? cut raw => \\ => [Text(\"\\\\\")]
? cut plain => {\x0b} \
  => [Text(\"\"), Field(Field { text: \"\\u{b}\", kept: None, conversion: None, spec: None }), Text(\"\")]
? cut nested => {x=} => Malformed: malformed f-string
? cut nested => {x==y} \
  => [Text(\"\"), Field(Field { text: \"x==y\", kept: None, conversion: None, spec: None }), Text(\"\")]
? cut nested => {y:{x=}} => Malformed: malformed f-string
? cut raw nested => {x!r} \
  => [Text(\"\"), Field(Field { text: \"x\", kept: None, conversion: Repr, spec: None }), Text(\"\")]
? cut plain => {x:\\N{a}} \
  => [Text(\"\"), Field(Field { text: \"x\", kept: None, conversion: None, spec: Some([Text(\"\\\\N{a}\")]) }), Text(\"\")]
? cut plain => {x====} \
  => [Text(\"\"), Field(Field { text: \"x====\", kept: None, conversion: None, spec: None }), Text(\"\")]
? cut plain => {x<==} \
  => [Text(\"\"), Field(Field { text: \"x<=\", kept: Some(\"x<==\"), conversion: Repr, spec: None }), Text(\"\")]
? cut plain => {x!=} \
  => [Text(\"\"), Field(Field { text: \"x!=\", kept: None, conversion: None, spec: None }), Text(\"\")]
? cut plain => {x>} \
  => [Text(\"\"), Field(Field { text: \"x>\", kept: None, conversion: None, spec: None }), Text(\"\")]
? cut plain => {(x=y)} \
  => [Text(\"\"), Field(Field { text: \"(x=y)\", kept: None, conversion: None, spec: None }), Text(\"\")]
? cut plain => {lambda: 1} \
  => [Text(\"\"), Field(Field { text: \"lambda\", kept: None, conversion: None, spec: Some([Text(\" 1\")]) }), Text(\"\")]
? cut plain => {\"it's\"} \
  => [Text(\"\"), Field(Field { text: \"\\\"it's\\\"\", kept: None, conversion: None, spec: None }), Text(\"\")]
? cut plain => {\"it's\" '\"'} \
  => [Text(\"\"), Field(Field { text: \"\\\"it's\\\" '\\\"'\", kept: None, conversion: None, spec: None }), Text(\"\")]
? cut plain => {'''\n'''} \
  => [Text(\"\"), Field(Field { text: \"'''\\n'''\", kept: None, conversion: None, spec: None }), Text(\"\")]
? cut plain => {'''a''b'''} \
  => [Text(\"\"), Field(Field { text: \"'''a''b'''\", kept: None, conversion: None, spec: None }), Text(\"\")]
? cut plain => {f\"\"\"{f'{x}'}\"\"\"} \
  => [Text(\"\"), Field(Field { text: \"f\\\"\\\"\\\"{f'{x}'}\\\"\\\"\\\"\", kept: None, conversion: None, spec: None }), Text(\"\")]
? cut plain => \\N\r\n{x} \
  => [Text(\"\\\\N\\r\\n\"), Field(Field { text: \"x\", kept: None, conversion: None, spec: None }), Text(\"\")]
? cut plain => {'''\r\n'''} \
  => [Text(\"\"), Field(Field { text: \"'''\\r\\n'''\", kept: None, conversion: None, spec: None }), Text(\"\")]
? cut raw nested => (=={x=y!s}<' => Malformed: malformed f-string
? cut raw nested => #([:= => [Text(\"#([:=\")]
? cut raw nested => {!s=}!= => Malformed: malformed f-string
? cut plain => \\N{){x=}'''!!a => [Text(\"\\\\N{){x=}'''!!a\")]
? cut raw nested => ==y\"\"\"{x:}x{} => Malformed: malformed f-string
? cut nested => !ryy!s\x0b!r => [Text(\"!ryy!s\\u{b}!r\")]
? cut plain => \"\"\"\\N => [Text(\"\\\"\\\"\\\"\\\\N\")]
? cut nested => é:{x=<=\\] => Malformed: malformed f-string
? cut raw nested => )}}:x:!r => [Text(\")}}:x:!r\")]
? cut nested => != é\"\"\"}}]\x0b] => [Text(\"!= é\\\"\\\"\\\"}}]\\u{b}]\")]
? cut nested => {x!}{𝒳xé!  => Malformed: malformed f-string
? cut plain => #!a!\\N{=é!a}\n => [Text(\"#!a!\\\\N{=é!a}\\n\")]
? cut nested => !==!r => [Text(\"!==!r\")]
? cut plain => <=N\n!a\\N{!r!a\\é => [Text(\"<=N\\n!a\\\\N{!r!a\\\\é\")]
? cut nested => =𝒳 => [Text(\"=𝒳\")]
? cut nested => == !a] => [Text(\"== !a]\")]
? cut nested => }})}\"\"\"{x\x0b => Malformed: malformed f-string
? cut plain => ]=\\N{!a} => [Text(\"]=\\\\N{!a}\")]
? cut nested => {x#N{x=!{ => Malformed: malformed f-string
? cut raw nested => ==\\N => [Text(\"==\\\\N\")]
? cut plain => !s\\N{]!a\"<: => [Text(\"!s\\\\N{]!a\\\"<:\")]
? cut nested => ](} => Malformed: malformed f-string
? cut raw nested => {x:\\'{\x0b => Malformed: malformed f-string
? cut plain => \\N => [Text(\"\\\\N\")]
? cut plain => '''\\{\"<(!={\"\"\" => Malformed: malformed f-string
? cut nested => 𝒳<=\\!a{}}\\N}}= => Malformed: malformed f-string
? cut nested => \" => [Text(\"\\\"\")]
? cut plain => \\N{{\\N\\<:𝒳\x0b => [Text(\"\\\\N{{\\\\N\\\\<:𝒳\\u{b}\")]
? cut raw nested => '{{x=é𝒳<={{{x: => Malformed: malformed f-string
? cut nested => {x<= => Malformed: malformed f-string
? cut nested => ]\"=#(['''y => [Text(\"]\\\"=#(['''y\")]
? cut raw nested => x}'é= => Malformed: malformed f-string
? cut raw nested => '''<=) }é]{x{x => Malformed: malformed f-string
? cut plain => \"\"\"'\"\\N𝒳\\N] => [Text(\"\\\"\\\"\\\"'\\\"\\\\N𝒳\\\\N]\")]
? cut raw => \n !{x<=\\ => Malformed: malformed f-string
? cut plain => '''\\ => [Text(\"'''\\\\\")]
? cut nested => }#[# => Malformed: malformed f-string
? cut plain => é\\Né => [Text(\"é\\\\Né\")]
? cut nested => }}<=!s𝒳 => [Text(\"}}<=!s𝒳\")]
? cut nested => ):!s{\"\"\"#) => Malformed: malformed f-string
? cut nested => :!s# => [Text(\":!s#\")]
? cut nested => !a<= => [Text(\"!a<=\")]
? cut nested => {{\\N => [Text(\"{{\\\\N\")]
? cut raw nested => y''N}N)\\N\\N => Malformed: malformed f-string
? cut raw nested => \\='=} => Malformed: malformed f-string
? cut raw nested => \n){' => Malformed: malformed f-string
? cut nested => {{)!a!= => [Text(\"{{)!a!=\")]
? cut raw nested => <{)\"\"\"={ => Malformed: malformed f-string
? cut nested => \n!a => [Text(\"\\n!a\")]
? cut nested => ==:{{({x= => Malformed: malformed f-string
? cut raw nested => \x0b=\\N!a!r => [Text(\"\\u{b}=\\\\N!a!r\")]
? cut nested => ' => [Text(\"'\")]
? cut plain => xé(\\N{: => [Text(\"xé(\\\\N{:\")]
? cut nested => <){x= => Malformed: malformed f-string
? cut plain => \\ => [Text(\"\\\\\")]
? cut raw nested => !s\\=={{}\\N{}] => Malformed: malformed f-string
? cut raw nested => '𝒳<}}!a => [Text(\"'𝒳<}}!a\")]
? cut plain => [é\\N{!r => [Text(\"[é\\\\N{!r\")]
? cut nested => <]{x==}{{ \
  => [Text(\"<]\"), Field(Field { text: \"x==\", kept: None, conversion: None, spec: None }), Text(\"{{\")]
? cut nested => {{ => [Text(\"{{\")]
? cut raw nested => <=\\N{{{[x\\ => Malformed: malformed f-string
? braces plain =>  =>\x20
? braces plain => abc => abc
? braces plain => {{a}} => {a}
? braces raw => {{{{}} => {{}
? braces plain => \\{{x}} => \\{x}
? braces plain => \\\\{{ => \\\\{
? braces plain => \\N{{}}} => \\N{{}}
? braces raw => \\N{{ => \\N{
? braces plain => é\\é𝒳}} => é\\é𝒳}
? field => x => Ok(Some((Name, \"x\"))) Ok(None)
? field =>  été +b  \
  => Ok(Some((Name, \"été\"))) Ok(Some((Operator(Plus), \"+\"))) Ok(Some((Name, \"b\"))) Ok(None)
? field =>  => Ok(None)
? field => x:=1.5j \
  => Ok(Some((Name, \"x\"))) Ok(Some((Operator(ColonEqual), \":=\"))) Ok(Some((Number, \"1.5j\"))) Ok(None)
? field => not x!=0xfe \
  => Ok(Some((Name, \"not\"))) Ok(Some((Name, \"x\"))) Ok(Some((Operator(NotEqual), \"!=\"))) Ok(Some((Number, \"0xfe\"))) Ok(None)
? field => f(*y)[0] \
  => Ok(Some((Name, \"f\"))) Ok(Some((Operator(LPar), \"(\"))) Ok(Some((Operator(Star), \"*\"))) Ok(Some((Name, \"y\"))) Ok(Some((Operator(RPar), \")\"))) Ok(Some((Operator(LSqb), \"[\"))) Ok(Some((Number, \"0\"))) Ok(Some((Operator(RSqb), \"]\"))) Ok(None)
? field => {1: (a]} \
  => Ok(Some((Operator(LBrace), \"{\"))) Ok(Some((Number, \"1\"))) Ok(Some((Operator(Colon), \":\"))) Ok(Some((Operator(LPar), \"(\"))) Ok(Some((Name, \"a\"))) Ok(Some((Operator(RSqb), \"]\"))) Ok(Some((Operator(RBrace), \"}\"))) Ok(None)
? field => x\n  + 1 \
  => Ok(Some((Name, \"x\"))) Ok(Some((Operator(Plus), \"+\"))) Ok(Some((Number, \"1\"))) Ok(None)
? field => x\r\n+ 1\n \
  => Ok(Some((Name, \"x\"))) Ok(Some((Operator(Plus), \"+\"))) Ok(Some((Number, \"1\"))) Ok(None)
? field =>   \n => Ok(None)
? field => x \\\n  y => Ok(Some((Name, \"x\"))) Ok(Some((Name, \"y\"))) Ok(None)
? field => 'a)' \"(\" => Ok(Some((String, \"'a)'\"))) Ok(Some((String, \"\\\"(\\\"\"))) Ok(None)
? field => '''a\n)''' => Ok(Some((String, \"'''a\\n)'''\"))) Ok(None)
? field => a $ b => Ok(Some((Name, \"a\"))) Err(NoToken)
? field => x! => Ok(Some((Name, \"x\"))) Err(NoToken)
? field => 'abc => Err(NoToken)
? field => '''a => Err(NoToken)
? field => (a => Ok(Some((Operator(LPar), \"(\"))) Ok(Some((Name, \"a\"))) Err(Unclosed)
? field => {(} \
  => Ok(Some((Operator(LBrace), \"{\"))) Ok(Some((Operator(LPar), \"(\"))) Ok(Some((Operator(RBrace), \"}\"))) Err(Unclosed)
? field => a)(b => Ok(Some((Name, \"a\"))) Err(Closer)
? field => ] => Err(Closer)
? field => # c => Err(Comment)
? field => a # b\n + c => Ok(Some((Name, \"a\"))) Err(Comment)";

/// The cut of a body, or why it has none, in the manner of a literal: `plain`, `raw`, `nested` for
/// one in a field, or `raw nested`.
pub(crate) fn cut(rt: &impl Abort, alloc: Global, out: &mut String, words: &str, body: &str) {
    let manner = Manner {
        is_raw: words.starts_with("raw"),
        is_nested: words.ends_with("nested"),
    };
    match pieces(alloc, body, manner) {
        Ok(pieces) => push_shown(rt, out, &pieces),
        Err(error) => push_told(rt, out, &error),
    }
}

/// A text of a body with one brace for each two.
pub(crate) fn braces(rt: &impl Abort, alloc: Global, out: &mut String, words: &str, text: &str) {
    let single = single(alloc, text, words == "raw").expect(rt, "memory");
    push(rt, out, single.as_str());
}

/// The tokens of a field's text, and what stops them.
pub(crate) fn field(rt: &impl Abort, out: &mut String, text: &str) {
    let mut tokens = FieldTokens::new(text);
    for _ in 0..20u64 {
        let told = tokens.next();
        push_shown(rt, out, &told);
        if !matches!(told, Ok(Some(_))) {
            return;
        }
    }
}
