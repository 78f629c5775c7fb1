//! Symbols.
ghost use Rattle.std.specs.Prelude.{◌≡◌, [], ◌∷◌};
ghost use Rattle.th_tree.specs.Tokens.{written_as, sign};
ghost use Rattle.th_lex.specs.ByLength.{symbols_of};

use th_tree::Sym;

/// The symbol of these two bytes; None where there is none.
pub(crate) fn pair(first: u8, second: u8) -> Option<Sym>
    ensures { result ≡ written_as sign (symbols_of 2) (first ∷ second ∷ []) }
{
    match (first, second) {
        (b':', b'=') => Some(Sym::Becomes),
        (b'=', b'=') => Some(Sym::Same),
        (b'~', b'=') => Some(Sym::NotEqual),
        (b'<', b'=') => Some(Sym::LessEqual),
        (b'>', b'=') => Some(Sym::GreaterEqual),
        _ => None,
    }
}

/// The symbol of this one byte; None where there is none.
pub(crate) fn single(byte: u8) -> Option<Sym>
    ensures { result ≡ written_as sign (symbols_of 1) (byte ∷ []) }
{
    match byte {
        b'(' => Some(Sym::OpenParen),
        b')' => Some(Sym::CloseParen),
        b'[' => Some(Sym::OpenSquare),
        b']' => Some(Sym::CloseSquare),
        b'{' => Some(Sym::OpenBrace),
        b'}' => Some(Sym::CloseBrace),
        b',' => Some(Sym::Comma),
        b';' => Some(Sym::Semicolon),
        b':' => Some(Sym::Colon),
        b'.' => Some(Sym::Dot),
        b'$' => Some(Sym::Dollar),
        b'=' => Some(Sym::Equal),
        b'<' => Some(Sym::Less),
        b'>' => Some(Sym::Greater),
        b'+' => Some(Sym::Plus),
        b'-' => Some(Sym::Minus),
        b'*' => Some(Sym::Times),
        b'/' => Some(Sym::Divide),
        b'%' => Some(Sym::Remainder),
        b'&' => Some(Sym::Ampersand),
        _ => None,
    }
}
