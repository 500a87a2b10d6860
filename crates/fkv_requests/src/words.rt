//! The words of a command line.
ghost use Rattle.std.specs.Prelude.{◌≡◌, MatchResult, Err, IfOk};
ghost use Rattle.std.specs.IoError.{error_kind};
ghost use Rattle.std.specs.Vec.Iter.{into_iter_items};

use std::alloc::{AllocError, Global};
use std::io::ErrorKind;
use std::{env, io};

/// All words that were given, in order, the program's name first. Where they could not be had the error is the same;
/// where there is no memory for their list it is `OutOfMemory`.
pub fn words_of(alloc: Global, given: io::Result<env::Args>) -> io::Result<Vec<String>>
    ensures { MatchResult given
        (λ words. MatchResult result (λ all. all.items ≡ into_iter_items words)
        (λ error. error_kind error ≡ ErrorKind.OutOfMemory))
        (λ error. result ≡ Err error) }
{
    let words = match given {
        Ok(words) => words,
        Err(error) => return Err(error),
    };
    match collected(alloc, words) {
        Ok(all) => Ok(all),
        Err(_) => Err(io::Error::from(ErrorKind::OutOfMemory)),
    }
}

/// All words, in order.
fn collected(alloc: Global, words: env::Args) -> Result<Vec<String>, AllocError>
    ensures { IfOk result (λ all. all.items ≡ into_iter_items words) }
{
    words.collect(alloc)
}
