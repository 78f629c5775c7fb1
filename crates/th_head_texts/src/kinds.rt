//! What tokens of heads are.
ghost use Rattle.std.specs.Prelude.{◌≡◌, ◌<◌, ◌&&◌, ◌||◌, drop, length, slice_get, Some};
ghost use Rattle.th_head_texts.specs.Heads.{first_kind, is_bare, is_dollar, is_for, is_has, is_name, is_semicolon, is_tied};

use th_tree::{Reserved, Sym, Token, TokenKind, Tokens};

/// Whether the token is a name.
fn is_name(kind: TokenKind) -> bool
    ensures { result ≡ is_name kind }
{
    matches!(kind, TokenKind::Name)
}

/// Whether the token is `;`.
pub(crate) fn is_semicolon(kind: TokenKind) -> bool
    ensures { result ≡ is_semicolon kind }
{
    matches!(kind, TokenKind::Symbol(Sym::Semicolon))
}

/// Whether the token is `$`.
fn is_dollar(kind: TokenKind) -> bool
    ensures { result ≡ is_dollar kind }
{
    matches!(kind, TokenKind::Symbol(Sym::Dollar))
}

/// Whether the token is the word `for`.
fn is_for(kind: TokenKind) -> bool
    ensures { result ≡ is_for kind }
{
    matches!(kind, TokenKind::Word(Reserved::KeyFor))
}

/// Whether the token is the word `has`.
fn is_has(kind: TokenKind) -> bool
    ensures { result ≡ is_has kind }
{
    matches!(kind, TokenKind::Word(Reserved::KeyHas))
}

/// Whether there is a token and it is `$` or `has`.
fn is_tied(kind: Option<TokenKind>) -> bool
    ensures { result ≡ is_tied kind }
{
    match kind {
        None => false,
        Some(kind) => is_dollar(kind) || is_has(kind),
    }
}

/// Whether a token between two others, where there are any, is a name that refers to something by itself.
fn is_bare(before: Option<TokenKind>, kind: TokenKind, after: Option<TokenKind>) -> bool
    ensures { result ≡ is_bare before kind after }
{
    is_name(kind) && !is_tied(before) && !is_tied(after)
}

/// Whether a token behind the word `for` or not, and between two others, where there are any, is a bare name that may mean an item.
pub(crate) fn may_mean_item(
    after_for: bool,
    before: Option<TokenKind>,
    kind: TokenKind,
    after: Option<TokenKind>,
) -> bool
    ensures { result ≡ (after_for && is_bare before kind after) }
{
    after_for && is_bare(before, kind, after)
}

/// Whether the token is the word `for` or stands behind it.
pub(crate) fn is_for_or(after_for: bool, kind: TokenKind) -> bool
    ensures { result ≡ (after_for || is_for kind) }
{
    after_for || is_for(kind)
}

/// What the token at place `k` is, where there is one.
pub(crate) fn kind_at(tokens: &Tokens<'_>, k: usize) -> Option<TokenKind>
    ensures { result ≡ first_kind (drop k tokens.now.list) }
{
    match tokens.get(k) {
        None => None,
        Some(token) => Some(token.kind),
    }
}

/// The token at place `k`.
pub(crate) fn token_at(tokens: &Tokens<'_>, k: usize) -> Token
    requires { k < length tokens.now.list }
    ensures { slice_get tokens.now.list k ≡ Some result }
{
    tokens.as_slice()[k]
}
