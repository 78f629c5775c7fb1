//! Classes of bytes.
ghost use Rattle.std.specs.Prelude.{◌≡◌};
ghost use Rattle.th_tree.specs.Tokens as tokens;

/// Whether the byte is a space, tab, line feed or carriage return.
pub(crate) fn is_blank(byte: u8) -> bool
    ensures { result ≡ tokens.is_blank byte }
{
    byte == b' ' || byte == b'\t' || byte == b'\n' || byte == b'\r'
}

/// Whether the byte is a digit.
pub(crate) fn is_digit(byte: u8) -> bool
    ensures { result ≡ tokens.is_digit byte }
{
    b'0' <= byte && byte <= b'9'
}

/// Whether the byte is a letter.
pub(crate) fn is_letter(byte: u8) -> bool
    ensures { result ≡ tokens.is_letter byte }
{
    (b'A' <= byte && byte <= b'Z') || (b'a' <= byte && byte <= b'z')
}

/// Whether the byte may stand in a name after its first.
pub(crate) fn is_inner(byte: u8) -> bool
    ensures { result ≡ tokens.is_inner byte }
{
    is_letter(byte) || is_digit(byte) || byte == b'_'
}

/// Whether the byte is one of printed text, 32 to 126.
pub(crate) fn is_printed(byte: u8) -> bool
    ensures { result ≡ tokens.is_printed byte }
{
    b' ' <= byte && byte <= b'~'
}

/// Whether the byte may follow a backslash in a string literal.
pub(crate) fn is_escape(byte: u8) -> bool
    ensures { result ≡ tokens.is_escape byte }
{
    byte == b'n' || byte == b'"' || byte == b'\\'
}
