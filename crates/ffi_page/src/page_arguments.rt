ghost use Rattle.std.specs.Prelude.{◌≡◌, IfOk, map, string_bytes};
ghost use Rattle.ffi_page.specs.Page.{words_in};

use std::alloc::{AllocError, Global};

/// Splits bytes at zero bytes into arguments, because an argument on a command line cannot contain a zero byte. Invalid
/// UTF-8 is replaced by U+FFFD.
pub fn words_in(alloc: Global, bytes: &[u8]) -> Result<Vec<String>, AllocError>
    ensures { IfOk result (λ words. map string_bytes words.items ≡ words_in bytes.now) }
{
    let text = String::from_utf8_lossy(alloc, bytes)?;
    let pieces: Vec<&str> = text.split('\0').collect(alloc)?;
    let mut words = Vec::new(alloc);
    for piece in &pieces {
        words.push(String::from_str(alloc, piece)?)?;
    }
    Ok(words)
}

/// Returns the value of option `index`, counted from 0. Returns `None` if the option is not set, that is, if the
/// argument is missing or does not begin with `=`.
pub fn option_at(words: &[String], index: usize) -> Option<&str> {
    words.get(index)?.as_str().strip_prefix('=')
}
