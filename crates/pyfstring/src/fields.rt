//! The fields of a body (reference 2.4.3).

ghost use Rattle.std.specs.Prelude.{◌≡◌, Some, None, IfOk, IfErr, OnOk, OnErr, is_some, option_map};
ghost use Rattle.std.specs.List.{list_all};
ghost use Rattle.std.specs.Str.{chars};
ghost use Rattle.pyfstring.specs.Parts.{field_of, text_of};
ghost use Rattle.pyfstring.specs.Pieces.{is_blank, is_blank_or_tabulation, after_blanks};
ghost use Rattle.pyfstring.specs.Pieces.{conversion_of};
ghost use Rattle.pyfstring.specs.Cutting.{EndsWith, expression_at, kept_at, conversion_by};
ghost use Rattle.pyfstring.specs.Cutting.{conversion_at, front_at, after_closing};
ghost use Rattle.pyfstring.specs.Inner.Passing.{IfMalformed};
ghost use Rattle.pyfstring.specs.Inner.Fronts.{front_of, IsWith};

use crate::parts::{Conversion, CutError, Field};
use crate::scanner::Scanner;
use std::alloc::Global;

/// Whether a character is a space, tab, form feed or of a line end.
fn is_blank(c: char) -> bool
    ensures { result ≡ is_blank c }
{
    c == ' ' || c == '\t' || c == '\x0c' || c == '\n' || c == '\r'
}

/// Whether a character is a blank or a vertical tab.
fn is_blank_or_tab(c: char) -> bool
    ensures { result ≡ is_blank_or_tabulation c }
{
    is_blank(c) || c == '\x0b'
}

/// What a letter after `!` converts by.
fn conversion_by(letter: char) -> Option<Conversion>
    ensures { result ≡ conversion_by letter }
{
    match letter {
        's' => Some(Conversion::Str),
        'r' => Some(Conversion::Repr),
        'a' => Some(Conversion::Ascii),
        _ => None,
    }
}

/// Whether a text is blanks alone.
fn are_blanks(text: &str) -> bool
    ensures { result ≡ list_all is_blank (chars text.now) }
{
    let mut left = Scanner::new(text);
    while let Some(c) = left.peek() {
        if !is_blank(c) {
            return false;
        }
        left.advance();
    }
    true
}

/// What a field converts its value by, where `given` is what it says itself.
fn conversion_of(given: Conversion, has_kept: bool, has_spec: bool) -> Conversion
    ensures { result ≡ conversion_of given has_kept has_spec }
{
    match given {
        Conversion::None if has_kept && !has_spec => Conversion::Repr,
        _ => given,
    }
}

/// A field up to its spec.
#[derive(Clone, Copy)]
pub(crate) struct Front<'a> {
    text: &'a str,
    kept: Option<&'a str>,
    given: Conversion,
}

impl<'a> Front<'a> {
    /// The field with this spec.
    pub(crate) fn with<S>(self, spec: Option<S>) -> Field<'a, S>
        ensures { IsWith self.entry spec result }
    {
        Field {
            text: self.text,
            kept: self.kept,
            conversion: conversion_of(self.given, self.kept.is_some(), spec.is_some()),
            spec,
        }
    }
}

impl<'a> Scanner<'a> {
    /// Passes blanks and vertical tabs.
    fn pass_blanks(&mut self)
        ensures { self.new ≡ after_blanks self.old }
    {
        while let Some(c) = self.peek() {
            if !is_blank_or_tab(c) {
                return;
            }
            self.advance();
        }
    }

    /// The expression that stands here.
    fn expression(&mut self, alloc: Global) -> Result<&'a str, CutError>
        ensures ok { IfOk result (λ t. expression_at self.old ≡ Some (chars t.now, self.new)) }
        ensures malformed { IfErr result (λ e. IfMalformed e (expression_at self.old ≡ None)) }
    {
        let start = self.again();
        self.pass_expression(alloc)?;
        let text = start.until(self);
        if are_blanks(text) {
            return Err(CutError::Malformed);
        }
        Ok(text)
    }

    /// Of a field that began at `start` what an `=` here keeps.
    fn kept(&mut self, start: &Scanner<'a>, is_nested: bool) -> Result<Option<&'a str>, CutError>
        requires { EndsWith start.now self.old }
        ensures ok { IfOk result (λ k. kept_at is_nested start.now self.old
            ≡ Some (option_map text_of k, self.new)) }
        ensures malformed { OnErr result (kept_at is_nested start.now self.old ≡ None) }
    {
        if !self.eat('=') {
            return Ok(None);
        }
        if is_nested {
            return Err(CutError::Malformed);
        }
        self.pass_blanks();
        Ok(Some(start.until(self)))
    }

    /// The conversion that stands here.
    fn conversion(&mut self) -> Result<Conversion, CutError>
        ensures ok { IfOk result (λ k. conversion_at self.old ≡ Some (k, self.new)) }
        ensures malformed { OnErr result (conversion_at self.old ≡ None) }
    {
        if !self.eat('!') {
            return Ok(Conversion::None);
        }
        let Some(letter) = self.peek() else {
            return Err(CutError::Malformed);
        };
        let Some(conversion) = conversion_by(letter) else {
            return Err(CutError::Malformed);
        };
        self.advance();
        Ok(conversion)
    }

    /// The field that stands here, after its `{`, up to its spec.
    pub(crate) fn front(&mut self, alloc: Global, is_nested: bool) -> Result<Front<'a>, CutError>
        ensures ok { IfOk result (λ f. front_at is_nested self.old ≡ Some (front_of f, self.new)) }
        ensures malformed { IfErr result
            (λ e. IfMalformed e (front_at is_nested self.old ≡ None)) }
    {
        let start = self.again();
        let text = self.expression(alloc)?;
        let kept = self.kept(&start, is_nested)?;
        let given = self.conversion()?;
        Ok(Front { text, kept, given })
    }

    /// Passes the `}` of a field.
    pub(crate) fn close(&mut self) -> Result<(), CutError>
        ensures ok { OnOk result (after_closing self.old ≡ Some self.new) }
        ensures malformed { OnErr result (after_closing self.old ≡ None) }
    {
        if !self.eat('}') {
            return Err(CutError::Malformed);
        }
        Ok(())
    }
}
