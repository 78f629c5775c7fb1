//! The canonical text of tokens.
ghost use Rattle.std.specs.Prelude.{◌≡◌, ◌++◌, IfOk, OnOk};
ghost use Rattle.th_tree.specs.Cut.{Cut};
ghost use Rattle.th_lex.specs.Canonical.{canonical, written, CutsAlike};

use itoa::Buffer;
use std::alloc::{AllocError, Global};
use th_tree::{TokenKind, Tokens};

/// The canonical text of the tokens, as LANGUAGE.md, "Tokens", states it: they are joined by single
/// spaces, and numbers have no leading zeros. It takes time linear in the bytes of the tokens.
pub fn spell(alloc: Global, tokens: &Tokens<'_>) -> Result<Vec<u8>, AllocError>
    ensures text { IfOk result (λ bytes. bytes.items ≡ canonical tokens.now.text tokens.now.list) }
    // Where the tokens are the cutting of their text, the canonical text is cut into the same tokens.
    ensures alike { IfOk result (λ bytes. Cut tokens.now.text tokens.now.list → CutsAlike tokens.now.text tokens.now.list bytes.items) }
{
    let mut text = Vec::new(alloc);
    for (k, token) in tokens.as_slice().iter().enumerate() {
        if k > 0 {
            text.push(b' ')?;
        }
        append(&mut text, token.kind, tokens.slice(k))?;
    }
    Ok(text)
}

/// Appends a token of this kind and these bytes, as the canonical text writes it.
fn append(text: &mut Vec<u8>, kind: TokenKind, bytes: &[u8]) -> Result<(), AllocError>
    ensures { OnOk result (text.new.items ≡ text.old.items ++ written kind bytes.now) }
{
    match kind {
        TokenKind::Number(value) => text.extend_from_slice(Buffer::new().format(value).as_bytes()),
        _ => text.extend_from_slice(bytes),
    }
}
