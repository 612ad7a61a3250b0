ghost use Rattle.std.specs.Prelude.{◌≡◌, nat_eq};
ghost use Rattle.std.specs.Cmp.Lexicographic.{pointwise};
ghost use Rattle.dt_text.specs.Texts.{is_key_byte, is_name_byte, is_text_byte};

/// Whether a key may have the byte: `a-z`, `0-9`, `/`, `_`, `.` and `-`.
pub fn is_key_byte(byte: u8) -> bool
    ensures { result ≡ is_key_byte byte }
{
    matches!(byte, b'a'..=b'z' | b'0'..=b'9' | b'/' | b'_' | b'.' | b'-')
}

/// Whether a name may have the byte: `a-z`, `0-9` and `_`.
pub fn is_name_byte(byte: u8) -> bool
    ensures { result ≡ is_name_byte byte }
{
    matches!(byte, b'a'..=b'z' | b'0'..=b'9' | b'_')
}

/// Whether a text may have the byte: a space or a visible character of ASCII.
pub fn is_text_byte(byte: u8) -> bool
    ensures { result ≡ is_text_byte byte }
{
    matches!(byte, b' '..=b'~')
}

/// Whether the bytes are the same. Words and keys have some ten: for so few, a loop takes a third of what a comparison of long
/// slices does.
pub fn are_same(mut left: &[u8], mut right: &[u8]) -> bool
    ensures { result ≡ pointwise nat_eq left.now right.now }
{
    while let Some((one, others)) = left.split_first() {
        let Some((other, rest)) = right.split_first() else {
            return false;
        };
        if one != other {
            return false;
        }
        (left, right) = (others, rest);
    }
    right.is_empty()
}
