//! Bytes of a journal as a message shows them.
use std::fmt;

/// How many bytes are shown at most.
const LONGEST: usize = 40;

/// Shows printable ASCII as it is and any other byte as `\xNN`, and `..` for the bytes past the longest.
#[derive(Clone, Copy, Debug)]
pub struct Excerpt<'a>(pub &'a [u8]);

impl fmt::Display for Excerpt<'_> {
    fn fmt<W: fmt::Write>(&self, f: &mut fmt::Formatter<W>) -> fmt::Result {
        let bytes = self.0;
        for byte in bytes.iter().take(LONGEST) {
            match *byte {
                b' '..=b'~' => f.write_char(char::from(*byte))?,
                byte => write!(f, "\\x{byte:02x}")?,
            }
        }
        if bytes.len() > LONGEST {
            f.write_str("..")?;
        }
        Ok(())
    }
}
