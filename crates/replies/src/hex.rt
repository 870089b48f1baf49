//! Bytes as hexadecimal digits.
ghost use Rattle.std.specs.Prelude.{◌≡◌, ◌<◌, Some};
ghost use Rattle.replies.specs.Hex.{hex_digit, byte_text, hex_text};

use std::fmt;

// The digit of a value below 16.
fn hex_digit(value: u8) -> char
    requires { value < 16 }
    ensures is { result ≡ hex_digit value }
    ensures ascii { result < 128 }
{
    if value < 10 {
        (b'0' + value) as char
    } else {
        (87 + value) as char
    }
}

// A byte, printed as its two digits.
// Kept with the digits made here: `{:02x}` takes three times the instructions, and a request has 44 bytes.
#[derive(Clone, Copy)]
struct HexByte(u8);

impl fmt::Display for HexByte {
    ghost output = { λ byte. Some (byte_text byte.0) };

    fn fmt<W: fmt::Write>(&self, f: &mut fmt::Formatter<W>) -> fmt::Result {
        f.write_char(hex_digit(self.0 / 16))?;
        f.write_char(hex_digit(self.0 % 16))
    }
}

/// Bytes, printed as hexadecimal digits, two to a byte, in lower case.
#[derive(Clone, Copy)]
pub struct Hex<'a>(pub &'a [u8]);

impl<'a> fmt::Display for Hex<'a> {
    ghost output = { λ bytes. Some (hex_text bytes.0.now) };

    fn fmt<W: fmt::Write>(&self, f: &mut fmt::Formatter<W>) -> fmt::Result {
        let bytes = self.0;
        for byte in bytes {
            let digits = HexByte(*byte);
            write!(f, "{digits}")?;
        }
        Ok(())
    }
}
