//! The words of a line.
ghost use Rattle.std.specs.Prelude.{◌≡◌, [], ◌++◌, IfOk, OnOk};
ghost use Rattle.journal.specs.Words.{blank, uncommented as uncommented_of, word as word_of, split as split_of, words as words_of, contents};

use crate::lines::cut;
use std::alloc::{AllocError, Global};

fn is_blank(byte: u8) -> bool
    ensures { result ≡ blank byte }
{
    matches!(byte, b' ' | b'\t' | b'\r')
}

/// The line without its comment, which goes from a `#` to the end.
fn uncommented(line: &[u8]) -> &[u8]
    ensures { result.now ≡ uncommented_of line.now }
{
    let (before, _) = cut(line, b'#');
    before
}

/// Adds the bytes between two blanks, which are a word unless there are none.
fn add<'a>(words: &mut Vec<&'a [u8]>, bytes: &'a [u8]) -> Result<(), AllocError>
    ensures { OnOk result (contents words.new.items ≡ contents words.old.items ++ word_of bytes.now) }
{
    if !bytes.is_empty() {
        words.push(bytes)?;
    }
    Ok(())
}

fn split<'a>(heap: Global, bytes: &'a [u8]) -> Result<Vec<&'a [u8]>, AllocError>
    ensures { IfOk result (λ v. contents v.items ≡ split_of [] bytes.now) }
{
    // A loop: a chain of `split`, `filter` and `collect` makes an empty part of each blank, and took half as long again
    // and more on lines of blanks.
    let mut words = Vec::new(heap);
    let mut start = 0;
    for i in 0..bytes.len() {
        if is_blank(bytes[i]) {
            add(&mut words, &bytes[start..i])?;
            start = i + 1;
        }
    }
    add(&mut words, &bytes[start..])?;
    Ok(words)
}

/// The words of a line, in their order: the longest runs of bytes that are no blanks, up to the comment if there is one.
pub fn words<'a>(heap: Global, line: &'a [u8]) -> Result<Vec<&'a [u8]>, AllocError>
    ensures { IfOk result (λ v. contents v.items ≡ words_of line.now) }
{
    split(heap, uncommented(line))
}
