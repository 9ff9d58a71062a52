//! Bytes by their hexadecimal digits.
ghost use Rattle.std.specs.Prelude.{◌<◌, IfSome};

use mdb_base::Memory;

/// The value of a hexadecimal digit.
pub(crate) fn digit(byte: u8) -> Option<u8>
    ensures { IfSome result (λ value. value < 16) }
{
    match byte {
        b'0'..=b'9' => Some(byte - b'0'),
        b'a'..=b'f' => Some(byte - b'a' + 10),
        _ => None,
    }
}

/// Where the reading of digits stands.
#[derive(Clone, Copy)]
enum Standing {
    /// Between two bytes.
    Between,
    /// After the first digit of a byte.
    Within { high: u8 },
    /// In a remark, which goes up to the end of its line.
    Remark,
    /// After what spells no byte.
    Lost,
}

/// Where the reading stands after one more byte of the text.
fn after(bytes: &mut Vec<u8>, standing: Standing, byte: u8) -> Result<Standing, Memory> {
    match standing {
        Standing::Between if byte == b' ' || byte == b'\n' => Ok(Standing::Between),
        Standing::Between if byte == b'#' => Ok(Standing::Remark),
        Standing::Between => match digit(byte) {
            Some(high) => Ok(Standing::Within { high }),
            None => Ok(Standing::Lost),
        },
        Standing::Within { high } => match digit(byte) {
            Some(low) => {
                bytes.push(high << 4 | low)?;
                Ok(Standing::Between)
            }
            None => Ok(Standing::Lost),
        },
        Standing::Remark if byte == b'\n' => Ok(Standing::Between),
        Standing::Remark => Ok(Standing::Remark),
        Standing::Lost => Ok(Standing::Lost),
    }
}

/// Adds the bytes that a text of hexadecimal digits spells, two digits a byte, with spaces and ends of lines between bytes; from `#` on the
/// rest of a line is a remark. Says whether the text spells bytes. Where it doesn't, or memory is out, a front of them is added.
pub fn push_hex(bytes: &mut Vec<u8>, text: &[u8]) -> Result<bool, Memory> {
    let mut standing = Standing::Between;
    for byte in text {
        standing = after(bytes, standing, *byte)?;
    }
    Ok(matches!(standing, Standing::Between | Standing::Remark))
}
