//! The words of a line.

ghost use Rattle.std.specs.Prelude.{◌≡◌, IfOk};
ghost use Rattle.line_words.specs.Words.{is_blank as is_blank_line, texts_of, words_of};

use bstr::ByteSlice;
use cdrc_text::OutOfMemory;
use std::alloc::Global;

/// The words of a line, in order. Linear in the bytes.
pub fn words(alloc: Global, line: &[u8]) -> Result<Vec<&[u8]>, OutOfMemory>
    ensures { IfOk result (λ found. texts_of found.items ≡ words_of line.now) }
{
    let mut found = Vec::new(alloc);
    for word in line.fields() {
        found.push(word)?;
    }
    Ok(found)
}

/// These are the words of a line that is skipped: there are none, or the first one begins with `#`.
pub fn is_blank(words: &[&[u8]]) -> bool
    ensures { result ≡ is_blank_line (texts_of words.now) }
{
    match words.first() {
        None => true,
        Some(word) => word.first() == Some(&b'#'),
    }
}
