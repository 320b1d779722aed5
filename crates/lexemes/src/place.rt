// Places in a text.

ghost use Rattle.std.specs.Prelude.{◌≡◌, length};

/// A place in a text, all by bytes: how many stand before it, the number of its line from 1, and its column in that line from 1.
/// The byte 0a ends a line.
#[derive(Clone, Copy, Debug, PartialEq, Eq)]
pub struct Place {
    pub offset: usize,
    pub line: usize,
    pub column: usize,
}

impl Place {
    ghost use Rattle.lexemes.specs.Places.{behind_byte, behind, HasRoom};

    /// The place of a text's first byte.
    pub(crate) const START: Place = Place {
        offset: 0,
        line: 1,
        column: 1,
    };

    // The place behind a byte.
    fn behind_byte(self, byte: u8) -> Place
        requires { HasRoom self 1 }
        ensures { result ≡ behind_byte self byte }
    {
        if byte == b'\n' {
            Place {
                offset: self.offset + 1,
                line: self.line + 1,
                column: 1,
            }
        } else {
            Place {
                offset: self.offset + 1,
                line: self.line,
                column: self.column + 1,
            }
        }
    }

    /// The place behind some bytes.
    pub(crate) fn behind(self, bytes: &[u8]) -> Place
        requires { HasRoom self (length bytes.now) }
        ensures { result ≡ behind self bytes.now }
    {
        let mut at = self;
        for byte in bytes {
            at = at.behind_byte(*byte);
        }
        at
    }
}
