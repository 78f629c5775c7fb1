//! Words with single spaces between them.
ghost use Rattle.std.specs.Prelude.{◌≡◌, ◌++◌, ◌∷◌, [], OnOk};
ghost use Rattle.th_lex.specs.Canonical.{written};
ghost use Rattle.th_head_texts.specs.Spaced.{after_space};

use itoa::Buffer;
use std::alloc::AllocError;
use th_tree::TokenKind;

/// Appends a space where a word stands before.
fn append_space(text: &mut Vec<u8>, begun: bool) -> Result<(), AllocError>
    ensures { OnOk result (text.new.items ≡ text.old.items ++ after_space begun []) }
{
    if begun {
        text.push(b' ')?;
    }
    Ok(())
}

/// Appends a token of this kind and these bytes as the canonical text writes it, after a space where a word stands before.
pub(crate) fn append_token(
    text: &mut Vec<u8>,
    begun: bool,
    kind: TokenKind,
    bytes: &[u8],
) -> Result<(), AllocError>
    ensures { OnOk result (text.new.items ≡ text.old.items ++ after_space begun (written kind bytes.now)) }
{
    append_space(text, begun)?;
    match kind {
        TokenKind::Number(value) => text.extend_from_slice(Buffer::new().format(value).as_bytes()),
        _ => text.extend_from_slice(bytes),
    }
}

/// Appends the name of an interface and `$`, after a space where a word stands before.
pub(crate) fn append_interface(
    text: &mut Vec<u8>,
    begun: bool,
    name: &[u8],
) -> Result<(), AllocError>
    ensures { OnOk result (text.new.items ≡ text.old.items ++ after_space begun (name.now ++ 32 ∷ 36 ∷ [])) }
{
    append_space(text, begun)?;
    text.extend_from_slice(name)?;
    text.extend_from_slice(b" $")
}
