ghost use Rattle.std.specs.Prelude.{◌≡◌, ◌==◌, ◌<◌, ℕ, nat_lt, nat_le, length};
ghost use Rattle.std.specs.List.{list_any};
ghost use Rattle.sw_check.specs.TextClass.{class_of, admits, with_byte, shares_byte};

/// A class of texts: whether the empty text is left out, and which bytes may occur. Bit b of `ascii`
/// says that the byte b may occur, `other` that bytes from 128 on may.
#[derive(Clone, Copy, PartialEq, Eq)]
pub struct TextClass {
    pub never_empty: bool,
    pub ascii: u128,
    pub other: bool,
}

impl TextClass {
    /// The class of the text's bytes: exactly these may occur, and it is never empty exactly
    /// where the text isn't.
    pub fn of(text: &str) -> TextClass
        ensures class { result ≡ class_of text.now }
        ensures low { (b : ℕ) → b < 128 → admits result b ≡ list_any (λ x. x == b) text.now }
        ensures high { result.other ≡ list_any (λ x. nat_le 128 x) text.now }
        ensures filled { result.never_empty ≡ nat_lt 0 (length text.now) }
    {
        class_of(text.as_bytes())
    }

    /// The class with this byte too.
    fn with_byte(self, byte: u8) -> TextClass
        ensures { result ≡ with_byte self byte }
    {
        if byte < 128 {
            TextClass {
                ascii: self.ascii | 1 << byte,
                ..self
            }
        } else {
            TextClass {
                other: true,
                ..self
            }
        }
    }

    /// Whether a byte may occur in texts of both classes.
    pub(crate) fn shares_byte(self, other: TextClass) -> bool
        ensures { result ≡ shares_byte self other }
    {
        self.ascii & other.ascii != 0 || self.other && other.other
    }
}

/// The class of these bytes.
fn class_of(bytes: &[u8]) -> TextClass
    ensures { result ≡ class_of bytes.now }
{
    let mut class = TextClass {
        never_empty: bytes.len() > 0,
        ascii: 0,
        other: false,
    };
    for byte in bytes {
        class = class.with_byte(*byte);
    }
    class
}
