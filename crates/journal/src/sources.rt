//! The word by which a line names the record to sign, and bytes in hexadecimal digits.
ghost use Rattle.std.specs.Prelude.{◌≡◌, IfOk, is_some, vec_items};
ghost use Rattle.std.specs.List.{list_all};
ghost use Rattle.std.specs.Option.{option_map};
ghost use Rattle.journal.specs.Words.{contents};
ghost use Rattle.journal.specs.Sources.{record_word, is_hex, is_hex_digit, hex_bytes, unhexed as unhexed_of, Sized};

use std::alloc::{AllocError, Global};

/// The second word of a line that is exactly `sign` and one more word.
pub fn record_word<'a>(words: &[&'a [u8]]) -> Option<&'a [u8]>
    ensures { option_map (λ s. s.now) result ≡ record_word (contents words.now) }
{
    match words {
        [b"sign", word] => Some(*word),
        _ => None,
    }
}

/// Whether a word begins with `0x`.
pub fn is_hex(word: &[u8]) -> bool
    ensures { result ≡ is_hex word.now }
{
    word.starts_with(b"0x")
}

fn all_digits(word: &[u8]) -> bool
    ensures { result ≡ list_all is_hex_digit word.now }
{
    word.iter().all(u8::is_ascii_hexdigit)
}

/// Whether digits are pairs of hexadecimal digits. It takes no memory to see.
fn are_pairs(digits: &[u8]) -> bool
    ensures { result ≡ is_some (hex_bytes digits.now) }
{
    digits.len() % 2 == 0 && all_digits(digits)
}

/// The bytes that a word writes in hexadecimal digits after `0x`, two digits to a byte.
/// None where the word does not begin so, has an odd number of digits, or has a byte that is no such digit.
pub fn unhexed(heap: Global, word: &[u8]) -> Result<Option<Vec<u8>>, AllocError>
    ensures bytes { IfOk result (λ o. option_map vec_items o ≡ unhexed_of word.now) }
    ensures size { IfOk result (λ o. Sized word.now (option_map vec_items o)) }
{
    let Some(digits) = word.strip_prefix(b"0x") else {
        return Ok(None);
    };
    // Before memory is asked for, so that a word that writes no bytes needs none.
    if !are_pairs(digits) {
        return Ok(None);
    }
    let mut bytes = vec![in heap; 0u8; digits.len() / 2]?;
    let decoded = hex::decode_to_slice(digits, &mut bytes).ok();
    Ok(decoded.map(|()| bytes))
}
