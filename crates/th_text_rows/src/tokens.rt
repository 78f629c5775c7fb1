//! Tokens and numbers of names, against docs/LANGUAGE.md, by hand.

ghost use Rattle.std.specs.Prelude.{length, ◌<◌};

use std::alloc::Global;
use std::process::Abort;
use std::test::Fail;
use th_lex::{LexError, lex, spell};
use th_tree::{NameTable, Reserved, Sym, TokenKind, Tokens};

/// The text has tokens of these kinds.
fn has_kinds(
    rt: &impl Abort,
    alloc: Global,
    text: &str,
    kinds: &[TokenKind],
) -> Result<(), LexError> {
    assert!(rt; text.len() < 100);
    let tokens = lex(alloc, text.as_bytes())?;
    assert_eq!(rt; tokens.len(), kinds.len(), "{text}");
    for (token, kind) in tokens.as_slice().iter().zip(kinds) {
        assert_eq!(rt; token.kind, *kind, "{text}");
    }
    Ok(())
}

/// How the reserved words are written.
const RESERVED: &[(&str, Reserved)] = &[
    ("module", Reserved::KeyModule),
    ("interface", Reserved::KeyInterface),
    ("implements", Reserved::KeyImplements),
    ("uses", Reserved::KeyUses),
    ("type", Reserved::KeyType),
    ("class", Reserved::KeyClass),
    ("for", Reserved::KeyFor),
    ("inherits", Reserved::KeyInherits),
    ("where", Reserved::KeyWhere),
    ("has", Reserved::KeyHas),
    ("exception", Reserved::KeyException),
    ("routine", Reserved::KeyRoutine),
    ("iter", Reserved::KeyIter),
    ("init", Reserved::KeyInit),
    ("hidden", Reserved::KeyHidden),
    ("field", Reserved::KeyField),
    ("returns", Reserved::KeyReturns),
    ("yields", Reserved::KeyYields),
    ("signals", Reserved::KeySignals),
    ("var", Reserved::KeyVar),
    ("if", Reserved::KeyIf),
    ("then", Reserved::KeyThen),
    ("elseif", Reserved::KeyElseif),
    ("else", Reserved::KeyElse),
    ("end", Reserved::KeyEnd),
    ("while", Reserved::KeyWhile),
    ("do", Reserved::KeyDo),
    ("in", Reserved::KeyIn),
    ("break", Reserved::KeyBreak),
    ("return", Reserved::KeyReturn),
    ("yield", Reserved::KeyYield),
    ("raise", Reserved::KeyRaise),
    ("begin", Reserved::KeyBegin),
    ("except", Reserved::KeyExcept),
    ("when", Reserved::KeyWhen),
    ("new", Reserved::KeyNew),
    ("array", Reserved::KeyArray),
    ("int", Reserved::KeyInt),
    ("bool", Reserved::KeyBool),
    ("true", Reserved::KeyTrue),
    ("false", Reserved::KeyFalse),
    ("self", Reserved::KeySelf),
    ("super", Reserved::KeySuper),
    ("or", Reserved::KeyOr),
    ("and", Reserved::KeyAnd),
    ("not", Reserved::KeyNot),
    ("length", Reserved::KeyLength),
    ("put_byte", Reserved::KeyPutByte),
    ("put_int", Reserved::KeyPutInt),
    ("get_byte", Reserved::KeyGetByte),
    ("overflow", Reserved::KeyOverflow),
    ("zero_divide", Reserved::KeyZeroDivide),
    ("bounds", Reserved::KeyBounds),
    ("end_of_input", Reserved::KeyEndOfInput),
    ("string", Reserved::KeyString),
    ("put_string", Reserved::KeyPutString),
];

#[test]
fn reserved_words(rt: HostRuntime) -> Result<(), Fail> {
    for &(text, word) in RESERVED {
        has_kinds(&rt, rt.alloc(), text, &[TokenKind::Word(word)])?;
    }
    Ok(())
}

/// How the symbols are written.
const SYMBOLS: &[(&str, Sym)] = &[
    ("(", Sym::OpenParen),
    (")", Sym::CloseParen),
    ("[", Sym::OpenSquare),
    ("]", Sym::CloseSquare),
    ("{", Sym::OpenBrace),
    ("}", Sym::CloseBrace),
    (",", Sym::Comma),
    (";", Sym::Semicolon),
    (":", Sym::Colon),
    (".", Sym::Dot),
    ("$", Sym::Dollar),
    (":=", Sym::Becomes),
    ("=", Sym::Equal),
    ("==", Sym::Same),
    ("~=", Sym::NotEqual),
    ("<", Sym::Less),
    ("<=", Sym::LessEqual),
    (">", Sym::Greater),
    (">=", Sym::GreaterEqual),
    ("+", Sym::Plus),
    ("-", Sym::Minus),
    ("*", Sym::Times),
    ("/", Sym::Divide),
    ("%", Sym::Remainder),
    ("&", Sym::Ampersand),
];

#[test]
fn symbols(rt: HostRuntime) -> Result<(), Fail> {
    for &(text, symbol) in SYMBOLS {
        has_kinds(&rt, rt.alloc(), text, &[TokenKind::Symbol(symbol)])?;
    }
    Ok(())
}

/// Texts of two symbols.
const PAIRS: &[(&str, Sym, Sym)] = &[
    (": =", Sym::Colon, Sym::Equal),
    (":==", Sym::Becomes, Sym::Equal),
    ("===", Sym::Same, Sym::Equal),
    ("~==", Sym::NotEqual, Sym::Equal),
    ("<=>", Sym::LessEqual, Sym::Greater),
    (">==", Sym::GreaterEqual, Sym::Equal),
    ("<>", Sym::Less, Sym::Greater),
];

#[test]
fn longest_tokens(rt: HostRuntime) -> Result<(), Fail> {
    for &(text, first, second) in PAIRS {
        let kinds = [TokenKind::Symbol(first), TokenKind::Symbol(second)];
        has_kinds(&rt, rt.alloc(), text, &kinds)?;
    }
    Ok(())
}

/// Texts, and the kinds of their tokens.
const TEXTS: &[(&str, &[TokenKind])] = &[
    ("", &[]),
    ("#", &[]),
    (" \t\r\n# module", &[]),
    ("a#b\nc", &[TokenKind::Name; 2]),
    ("a\rb\tc", &[TokenKind::Name; 3]),
    ("Module modules put_bytes a_1 Z", &[TokenKind::Name; 5]),
    ("007", &[TokenKind::Number(7)]),
    ("2147483647", &[TokenKind::Number(2147483647)]),
    ("0000000000002147483647", &[TokenKind::Number(2147483647)]),
    (
        "0 00 1",
        &[
            TokenKind::Number(0),
            TokenKind::Number(0),
            TokenKind::Number(1),
        ],
    ),
    ("1a", &[TokenKind::Number(1), TokenKind::Name]),
    ("a b# module\r;\nc #", &[TokenKind::Name; 3]),
    ("end2 elseifx end_ ends", &[TokenKind::Name; 4]),
    ("1 2#3\n", &[TokenKind::Number(1), TokenKind::Number(2)]),
    ("\ta\r\n", &[TokenKind::Name]),
    ("\"\"", &[TokenKind::Text]),
    ("\"a#\\n\\\"\\\\\"", &[TokenKind::Text]),
    ("\"a\"\"b\"", &[TokenKind::Text; 2]),
];

#[test]
fn names_and_literals(rt: HostRuntime) -> Result<(), Fail> {
    for &(text, kinds) in TEXTS {
        has_kinds(&rt, rt.alloc(), text, kinds)?;
    }
    Ok(())
}

/// The places of the tokens of `module m # c`, a line feed and `; 12`, and their bytes.
const SPANS: [(u32, u32, &[u8]); 4] = [
    (0, 6, b"module"),
    (7, 8, b"m"),
    (13, 14, b";"),
    (15, 17, b"12"),
];

#[test]
fn spans(rt: HostRuntime) -> Result<(), Fail> {
    let tokens = lex(rt.alloc(), b"module m # c\n; 12")?;
    assert_eq!(rt; tokens.len(), 4);
    for k in 0..4 {
        let token = tokens.get(k).expect(&rt, "a token");
        assert!(rt; k < tokens.len());
        assert_eq!(rt; (token.start, token.end, tokens.slice(k)), SPANS[k]);
    }
    Ok(())
}

/// Why a text has no tokens, and where.
fn refusal(alloc: Global, text: &[u8]) -> Option<(&str, u32)>
    requires { length text.now < 100 }
{
    match lex(alloc, text) {
        Ok(_) => None,
        Err(LexError::BadByte(at)) => Some(("bad byte", at)),
        Err(LexError::WideNumber(at)) => Some(("wide number", at)),
        Err(LexError::Memory) => None,
    }
}

/// Texts, why they have no tokens, and where.
const REFUSED: &[(&[u8], &str, u32)] = &[
    (b"module m; ?", "bad byte", 10),
    (b"~", "bad byte", 0),
    (b"a ~ =", "bad byte", 2),
    (b"_", "bad byte", 0),
    (b"~x", "bad byte", 0),
    (b"a~", "bad byte", 1),
    (b"x\xff", "bad byte", 1),
    (b"a\x0b", "bad byte", 1),
    (b"\"", "bad byte", 0),
    (b"\"\\\"", "bad byte", 0),
    (b"\"\\", "bad byte", 0),
    (b"\"a\xff\"", "bad byte", 0),
    (b"# ?\n!", "bad byte", 4),
    (b"2147483648", "wide number", 0),
    (b"2147483647 2147483648", "wide number", 11),
    (b"2147483648a", "wide number", 0),
    (b"\0", "bad byte", 0),
    (b"a \"b", "bad byte", 2),
    (b"\"\\t\"", "bad byte", 0),
    (b"\"\n\"", "bad byte", 0),
    (b"\"\x7f\"", "bad byte", 0),
    (b"? 2147483648", "bad byte", 0),
    (b"put_int(2147483648)", "wide number", 8),
    (b"1 00002147483648", "wide number", 2),
    (b"99999999999999999999999999 ?", "wide number", 0),
];

#[test]
fn refusals(rt: HostRuntime) {
    for &(text, why, place) in REFUSED {
        assert!(rt; text.len() < 100);
        assert_eq!(rt; refusal(rt.alloc(), text), Some((why, place)), "{text:?}");
    }
}

/// Texts, and their canonical texts.
const SPELLED: &[(&str, &str)] = &[
    ("", ""),
    ("#", ""),
    (" \t\r\n", ""),
    ("module  m;", "module m ;"),
    ("module m;#", "module m ;"),
    ("a#c\nb", "a b"),
    ("a\tb\rc", "a b c"),
    ("007 000 0", "7 0 0"),
    ("02147483647", "2147483647"),
    ("01a", "1 a"),
    ("x:=1<=2", "x := 1 <= 2"),
    ("x: =1", "x : = 1"),
    (":==", ":= ="),
    ("~==", "~= ="),
    ("((", "( ("),
    ("a.length[i$j]", "a . length [ i $ j ]"),
    ("\"\"\"a  b\"", "\"\" \"a  b\""),
    ("\"#007\\n\\\"\\\\\"", "\"#007\\n\\\"\\\\\""),
];

/// Two lists of tokens have the same kinds, and the same bytes where they are no numbers.
fn are_alike(rt: &impl Abort, left: &Tokens<'_>, right: &Tokens<'_>) {
    assert_eq!(rt; left.len(), right.len());
    for k in 0..left.len() {
        let kind = left.as_slice()[k].kind;
        assert!(rt; k < right.len());
        assert_eq!(rt; kind, right.as_slice()[k].kind, "at {k}");
        let is_number = matches!(kind, TokenKind::Number(_));
        assert!(rt; is_number || left.slice(k) == right.slice(k), "at {k}");
    }
}

#[test]
fn spelled(rt: HostRuntime) -> Result<(), Fail> {
    for &(text, canonical) in SPELLED {
        assert!(rt; text.len() < 100);
        let tokens = lex(rt.alloc(), text.as_bytes())?;
        let once = spell(rt.alloc(), &tokens)?;
        assert_eq!(rt; once.as_slice(), canonical.as_bytes(), "{text}");
        assert!(rt; once.len() < 100);
        let again = lex(rt.alloc(), &once)?;
        are_alike(&rt, &tokens, &again);
        let twice = spell(rt.alloc(), &again)?;
        assert_eq!(rt; twice, once, "{text}");
    }
    Ok(())
}

/// Texts, the place of a string literal among their tokens, and what it means.
const VALUES: &[(&str, usize, &[u8])] = &[
    ("\"\"", 0, b""),
    ("\"ab\"", 0, b"ab"),
    ("\"\\n\"", 0, &[10]),
    ("\"\\\"\"", 0, &[34]),
    ("\"\\\\\"", 0, &[92]),
    ("\"\\\\n\"", 0, &[92, 110]),
    ("\"n\\nn\"", 0, &[110, 10, 110]),
    ("\" # \"", 0, b" # "),
    ("x \"y\"", 1, &[121]),
    ("\"x\" \"y\"", 1, &[121]),
];

#[test]
fn values(rt: HostRuntime) -> Result<(), Fail> {
    for &(text, place, value) in VALUES {
        assert!(rt; text.len() < 100);
        let tokens = lex(rt.alloc(), text.as_bytes())?;
        let token = *tokens.get(place).expect(&rt, "a token");
        assert!(rt; token.kind == TokenKind::Text);
        assert_eq!(rt;
            tokens.value(rt.alloc(), place)?.as_slice(),
            value,
            "{text}"
        );
    }
    Ok(())
}

#[test]
fn name_table(rt: HostRuntime) -> Result<(), Fail> {
    let mut table = NameTable::new(rt.alloc());
    for &(name, number) in &[(b"a", 0), (b"b", 1), (b"a", 0), (b"B", 2)] {
        assert!(rt; table.len() < 100);
        assert_eq!(rt; table.number(rt.alloc(), name)?, number);
    }
    assert_eq!(rt; table.len(), 3);
    assert_eq!(rt; table.name(1), Some(b"b".as_slice()));
    assert_eq!(rt; table.name(3), None);
    Ok(())
}
