//! The text between groups of lines.
ghost use Rattle.std.specs.Prelude.{◌≡◌, IfSome, codes};
ghost use Rattle.pg_rows.specs.Separator.{separator_for, separator_of, separator_text};

/// The most bytes of a separator.
pub const MAX_SEPARATOR: usize = 64;

/// A text for the row between groups of lines that aren't adjacent: at most [`MAX_SEPARATOR`] bytes, and maybe none.
#[derive(Clone, Copy, Debug, PartialEq, Eq)]
pub struct Separator {
    /// The text, and NULs behind it.
    bytes: [u8; MAX_SEPARATOR],
    /// The number of the text's bytes.
    len: usize,
}

impl Separator {
    /// The separator with this text; `None` where that has more than [`MAX_SEPARATOR`] bytes.
    pub fn new(text: &[u8]) -> Option<Separator>
        ensures exact { result ≡ separator_for text.now }
        ensures holds { IfSome result (λ separator. separator_text separator ≡ text.now) }
    {
        if text.len() > MAX_SEPARATOR {
            return None;
        }
        let mut bytes = [0; MAX_SEPARATOR];
        bytes[..text.len()].copy_from_slice(text);
        Some(Separator {
            bytes,
            len: text.len(),
        })
    }

    /// Two hyphens, `--`.
    pub fn hyphens() -> Separator
        ensures exact { result ≡ separator_of (codes "--") }
        ensures holds { separator_text result ≡ codes "--" }
    {
        let mut bytes = [0; MAX_SEPARATOR];
        bytes[0] = b'-';
        bytes[1] = b'-';
        Separator { bytes, len: 2 }
    }

    /// The text.
    pub fn as_slice(&self) -> &[u8]
        ensures { result.now ≡ separator_text self.now }
    {
        &self.bytes[..self.len.min(MAX_SEPARATOR)]
    }
}
