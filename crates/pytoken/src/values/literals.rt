//! What string literals stand for.
//!
//! Python language reference, 2.4.1 "String and Bytes literals".

ghost use Rattle.std.specs.Prelude.{◌≡◌, ◌++◌, true, false, IfOk, OnOk, None};
ghost use Rattle.std.specs.List.{list_all};
ghost use Rattle.std.specs.Str.{chars};
ghost use Rattle.pytoken.specs.Escapes.{points_in};
ghost use Rattle.pytoken.specs.StringValues.{string_value, string_fault};
ghost use Rattle.pytoken.specs.Laws.{is_point, is_byte};
ghost use Rattle.pytoken.specs.Values.{literal_value};
ghost use Rattle.pytoken.specs.Inner.Readings.{body_points};

use crate::Meaning;
use crate::values::characters::Characters;
use crate::values::escapes::next_meaning;
use crate::values::strings::{begins_bare, body, inside, is_marked};
use pytree_node::Points;
use std::alloc::{AllocError, Global};

/// What a string literal stands for.
#[derive(Drop)]
pub enum Literal {
    /// A text, by its code points, and whether its prefix is a small `u`.
    Text { points: Points, unicode: bool },
    /// Bytes.
    Bytes(Vec<u8>),
}

/// Appends the point that a meaning gives.
fn push_point(points: &mut Points, meaning: Meaning) -> Result<(), AllocError>
    requires { list_all is_point (points_in meaning) ≡ true }
    ensures { OnOk result (points.new ≡ points.old ++ points_in meaning) }
{
    match meaning {
        Meaning::Point(point) => points.push(point),
        Meaning::Nothing | Meaning::Wrong(_) => Ok(()),
    }
}

/// Appends the text of what is left of a body.
fn push_text(points: &mut Points, rest: Characters, raw: bool) -> Result<(), AllocError>
    requires { list_all is_point rest ≡ true }
    ensures { OnOk result (points.new ≡ points.old ++ body_points raw false rest.entry) }
{
    let mut left = rest;
    while let Some(meaning) = next_meaning(&mut left, raw, false) {
        push_point(points, meaning)?;
        points.push_bytes(left.bump_plain(raw))?;
    }
    Ok(())
}

/// The text of a body. Most have no escape, and are their own text.
pub(crate) fn text_in(alloc: Global, body: Characters, raw: bool) -> Result<Points, AllocError>
    requires { list_all is_point body ≡ true }
    ensures { IfOk result (λ points. points ≡ body_points raw false body.entry) }
{
    let mut left = body;
    let mut points = Points::new(alloc);
    points.push_bytes(left.bump_plain(raw))?;
    if left.is_done() {
        return Ok(points);
    }
    push_text(&mut points, left, raw)?;
    Ok(points)
}

/// Appends the byte that a meaning gives.
fn push_byte(bytes: &mut Vec<u8>, meaning: Meaning) -> Result<(), AllocError>
    ensures { OnOk result (list_all is_byte (points_in meaning) ≡ true
        → bytes.new.items ≡ bytes.old.items ++ points_in meaning) }
{
    let Meaning::Point(point) = meaning else {
        return Ok(());
    };
    let Ok(byte) = u8::try_from(point) else {
        return Ok(());
    };
    bytes.push(byte)?;
    Ok(())
}

/// Appends the bytes of what is left of a body. A point that is none, of an escape with a fault, is
/// left out.
fn push_bytes(bytes: &mut Vec<u8>, rest: Characters, raw: bool) -> Result<(), AllocError>
    ensures { OnOk result (list_all is_byte (body_points raw true rest.entry) ≡ true
        → bytes.new.items ≡ bytes.old.items ++ body_points raw true rest.entry) }
{
    let mut left = rest;
    while let Some(meaning) = next_meaning(&mut left, raw, true) {
        push_byte(bytes, meaning)?;
        bytes.extend_from_slice(left.bump_plain(raw))?;
    }
    Ok(())
}

/// The bytes of a body.
fn bytes_in(alloc: Global, body: Characters, raw: bool) -> Result<Vec<u8>, AllocError>
    ensures { IfOk result (λ bytes. list_all is_byte (body_points raw true body.entry) ≡ true
        → bytes.items ≡ body_points raw true body.entry) }
{
    let mut left = body;
    let mut bytes = Vec::from_slice(alloc, left.bump_plain(raw))?;
    push_bytes(&mut bytes, left, raw)?;
    Ok(bytes)
}

/// What a string literal without a fault stands for, if it may have a prefix.
#[inline(never)]
fn prefixed_value(alloc: Global, text: &str) -> Result<Literal, AllocError>
    ensures { IfOk result (λ made. string_fault (chars text.now) ≡ None
        → literal_value made ≡ string_value (chars text.now)) }
{
    let literal = Characters::new(text);
    let raw = is_marked(&literal, 'r', 'R');
    if is_marked(&literal, 'b', 'B') {
        let bytes = bytes_in(alloc, body(&literal), raw)?;
        return Ok(Literal::Bytes(bytes));
    }
    let points = text_in(alloc, body(&literal), raw)?;
    let unicode = is_marked(&literal, 'u', 'u');
    Ok(Literal::Text { points, unicode })
}

/// What a string literal without a fault stands for.
pub fn string_value(alloc: Global, text: &str) -> Result<Literal, AllocError>
    ensures { IfOk result (λ made. string_fault (chars text.now) ≡ None
        → literal_value made ≡ string_value (chars text.now)) }
{
    let literal = Characters::new(text);
    if !begins_bare(&literal) {
        return prefixed_value(alloc, text);
    }
    let points = text_in(alloc, inside(&literal), false)?;
    Ok(Literal::Text {
        points,
        unicode: false,
    })
}
