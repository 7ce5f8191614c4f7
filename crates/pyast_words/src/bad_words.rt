//! The word by which words are bad.

ghost use Rattle.std.specs.Prelude.{◌≤◌, length, IfOk, IfSome, ◌<◌};
ghost use Rattle.pyast_words.specs.Inner.Matching.{Names};

use crate::command::{UsageFault, read_words};
use std::alloc::{AllocError, Global};

/// A value, which is what an option may lack.
const VALUE: &str = "v";

/// What files there may be after the last word.
const FILES: [&str; 2] = ["a", "-"];

/// Whether good words begin so.
fn is_good(alloc: Global, words: &[&str]) -> Result<bool, AllocError> {
    match read_words(alloc, words) {
        Ok(_) | Err(UsageFault::HelpAsked(_) | UsageFault::VersionAsked(_)) => Ok(true),
        Err(UsageFault::Memory) => Err(AllocError),
        Err(_) => Ok(false),
    }
}

/// Whether words are good as they are, or with one of the files that there may be after them.
fn is_good_with_file(alloc: Global, words: &mut Vec<&str>) -> Result<bool, AllocError> {
    if is_good(alloc, words.as_slice())? {
        return Ok(true);
    }
    for file in FILES {
        words.push(file)?;
        let good = is_good(alloc, words.as_slice())?;
        let _ = words.pop();
        if good {
            return Ok(true);
        }
    }
    Ok(false)
}

/// Whether words can be the first of good ones: they lack a value and a file at most.
fn can_go_on(alloc: Global, words: &[String]) -> Result<bool, AllocError> {
    let mut all = Vec::with_capacity(alloc, words.len() + 2)?;
    for word in words {
        all.push(word.as_str())?;
    }
    if is_good_with_file(alloc, &mut all)? {
        return Ok(true);
    }
    all.push(VALUE)?;
    is_good_with_file(alloc, &mut all)
}

/// How many words there are up to the one that no others make good, if there is one. What goes on
/// with some words goes on with fewer of them too.
fn first_bad(alloc: Global, words: &[String]) -> Result<Option<usize>, AllocError>
    ensures { IfOk result (λ at. IfSome at (λ n. n < length words.now)) }
{
    let mut good = 0;
    let mut bad = words.len() + 1;
    while bad - good > 1 {
        let middle = good + (bad - good) / 2;
        if can_go_on(alloc, &words[..middle])? {
            good = middle;
        } else {
            bad = middle;
        }
    }
    if good < words.len() {
        Ok(Some(good))
    } else {
        Ok(None)
    }
}

/// How words that are bad are told where the word is named that makes them so: the last of the
/// fewest that no further words make good.
pub(crate) fn named(alloc: Global, words: &[String]) -> UsageFault
    ensures { Names result }
{
    let word = match first_bad(alloc, words) {
        Ok(Some(at)) => String::from_str(alloc, words[at].as_str()),
        Ok(None) => return UsageFault::WordMissing,
        Err(_) => return UsageFault::Memory,
    };
    match word {
        Ok(word) => UsageFault::BadWord(word),
        Err(_) => UsageFault::Memory,
    }
}
