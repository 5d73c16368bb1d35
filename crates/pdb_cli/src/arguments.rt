//! The words that the program was called with.

ghost use Rattle.std.specs.Prelude.{drop, map, string_bytes, Ok};
ghost use Rattle.std.specs.Vec.Iter.{into_iter_items};
ghost use Rattle.pdb_base.specs.Answer.{Answers};

use pdb_container::Result;
use std::alloc::Global;
use std::env::Args;

/// Returns the words after the program's name.
pub fn words_of(alloc: Global, args: Args) -> Result<Vec<String>>
    ensures { Answers (λ words. words.items) result (Ok (drop 1 (into_iter_items args))) }
{
    let mut words = Vec::new(alloc);
    for word in args.skip(1) {
        words.push(word)?;
    }
    Ok(words)
}

/// Returns the texts of words.
pub fn texts_of<'w>(alloc: Global, words: &'w [String]) -> Result<Vec<&'w str>>
    ensures { Answers (λ texts. map (λ text. text.now) texts.items) result (Ok (map string_bytes words.now)) }
{
    let mut texts = Vec::with_capacity(alloc, words.len())?;
    for word in words {
        texts.push(word.as_str())?;
    }
    Ok(texts)
}
