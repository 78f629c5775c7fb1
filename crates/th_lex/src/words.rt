//! Reserved words, by their length.
ghost use Rattle.std.specs.Prelude.{◌≡◌};
ghost use Rattle.th_tree.specs.Tokens.{reserved_of, written_as, spelling};
ghost use Rattle.th_lex.specs.ByLength.{words_of};

use th_tree::Reserved;

/// The reserved word that is written so; None where there is none.
pub(crate) fn reserved(word: &[u8]) -> Option<Reserved>
    ensures { result ≡ reserved_of word.now }
{
    match word.len() {
        2 => of_two_letters(word),
        3 => of_three_letters(word),
        4 => of_four_letters(word),
        5 => of_five_letters(word),
        6 => of_six_letters(word),
        7 => of_seven_letters(word),
        8 => of_eight_letters(word),
        9 => of_nine_letters(word),
        10 => of_ten_letters(word),
        11 => of_eleven_letters(word),
        12 => of_twelve_letters(word),
        _ => None,
    }
}

fn of_two_letters(word: &[u8]) -> Option<Reserved>
    ensures { result ≡ written_as spelling (words_of 2) word.now }
{
    if word == b"if".as_slice() {
        Some(Reserved::KeyIf)
    } else if word == b"do".as_slice() {
        Some(Reserved::KeyDo)
    } else if word == b"in".as_slice() {
        Some(Reserved::KeyIn)
    } else if word == b"or".as_slice() {
        Some(Reserved::KeyOr)
    } else {
        None
    }
}

fn of_three_letters(word: &[u8]) -> Option<Reserved>
    ensures { result ≡ written_as spelling (words_of 3) word.now }
{
    if word == b"for".as_slice() {
        Some(Reserved::KeyFor)
    } else if word == b"has".as_slice() {
        Some(Reserved::KeyHas)
    } else if word == b"var".as_slice() {
        Some(Reserved::KeyVar)
    } else if word == b"end".as_slice() {
        Some(Reserved::KeyEnd)
    } else if word == b"new".as_slice() {
        Some(Reserved::KeyNew)
    } else if word == b"int".as_slice() {
        Some(Reserved::KeyInt)
    } else if word == b"and".as_slice() {
        Some(Reserved::KeyAnd)
    } else if word == b"not".as_slice() {
        Some(Reserved::KeyNot)
    } else {
        None
    }
}

fn of_four_letters(word: &[u8]) -> Option<Reserved>
    ensures { result ≡ written_as spelling (words_of 4) word.now }
{
    if word == b"uses".as_slice() {
        Some(Reserved::KeyUses)
    } else if word == b"type".as_slice() {
        Some(Reserved::KeyType)
    } else if word == b"iter".as_slice() {
        Some(Reserved::KeyIter)
    } else if word == b"init".as_slice() {
        Some(Reserved::KeyInit)
    } else if word == b"then".as_slice() {
        Some(Reserved::KeyThen)
    } else if word == b"else".as_slice() {
        Some(Reserved::KeyElse)
    } else if word == b"when".as_slice() {
        Some(Reserved::KeyWhen)
    } else if word == b"bool".as_slice() {
        Some(Reserved::KeyBool)
    } else if word == b"true".as_slice() {
        Some(Reserved::KeyTrue)
    } else if word == b"self".as_slice() {
        Some(Reserved::KeySelf)
    } else {
        None
    }
}

fn of_five_letters(word: &[u8]) -> Option<Reserved>
    ensures { result ≡ written_as spelling (words_of 5) word.now }
{
    if word == b"class".as_slice() {
        Some(Reserved::KeyClass)
    } else if word == b"where".as_slice() {
        Some(Reserved::KeyWhere)
    } else if word == b"field".as_slice() {
        Some(Reserved::KeyField)
    } else if word == b"while".as_slice() {
        Some(Reserved::KeyWhile)
    } else if word == b"break".as_slice() {
        Some(Reserved::KeyBreak)
    } else if word == b"yield".as_slice() {
        Some(Reserved::KeyYield)
    } else if word == b"raise".as_slice() {
        Some(Reserved::KeyRaise)
    } else if word == b"begin".as_slice() {
        Some(Reserved::KeyBegin)
    } else if word == b"array".as_slice() {
        Some(Reserved::KeyArray)
    } else if word == b"false".as_slice() {
        Some(Reserved::KeyFalse)
    } else if word == b"super".as_slice() {
        Some(Reserved::KeySuper)
    } else {
        None
    }
}

fn of_six_letters(word: &[u8]) -> Option<Reserved>
    ensures { result ≡ written_as spelling (words_of 6) word.now }
{
    if word == b"module".as_slice() {
        Some(Reserved::KeyModule)
    } else if word == b"hidden".as_slice() {
        Some(Reserved::KeyHidden)
    } else if word == b"yields".as_slice() {
        Some(Reserved::KeyYields)
    } else if word == b"elseif".as_slice() {
        Some(Reserved::KeyElseif)
    } else if word == b"return".as_slice() {
        Some(Reserved::KeyReturn)
    } else if word == b"except".as_slice() {
        Some(Reserved::KeyExcept)
    } else if word == b"length".as_slice() {
        Some(Reserved::KeyLength)
    } else if word == b"bounds".as_slice() {
        Some(Reserved::KeyBounds)
    } else if word == b"string".as_slice() {
        Some(Reserved::KeyString)
    } else {
        None
    }
}

fn of_seven_letters(word: &[u8]) -> Option<Reserved>
    ensures { result ≡ written_as spelling (words_of 7) word.now }
{
    if word == b"routine".as_slice() {
        Some(Reserved::KeyRoutine)
    } else if word == b"returns".as_slice() {
        Some(Reserved::KeyReturns)
    } else if word == b"signals".as_slice() {
        Some(Reserved::KeySignals)
    } else if word == b"put_int".as_slice() {
        Some(Reserved::KeyPutInt)
    } else {
        None
    }
}

fn of_eight_letters(word: &[u8]) -> Option<Reserved>
    ensures { result ≡ written_as spelling (words_of 8) word.now }
{
    if word == b"inherits".as_slice() {
        Some(Reserved::KeyInherits)
    } else if word == b"put_byte".as_slice() {
        Some(Reserved::KeyPutByte)
    } else if word == b"get_byte".as_slice() {
        Some(Reserved::KeyGetByte)
    } else if word == b"overflow".as_slice() {
        Some(Reserved::KeyOverflow)
    } else {
        None
    }
}

fn of_nine_letters(word: &[u8]) -> Option<Reserved>
    ensures { result ≡ written_as spelling (words_of 9) word.now }
{
    if word == b"interface".as_slice() {
        Some(Reserved::KeyInterface)
    } else if word == b"exception".as_slice() {
        Some(Reserved::KeyException)
    } else {
        None
    }
}

fn of_ten_letters(word: &[u8]) -> Option<Reserved>
    ensures { result ≡ written_as spelling (words_of 10) word.now }
{
    if word == b"implements".as_slice() {
        Some(Reserved::KeyImplements)
    } else if word == b"put_string".as_slice() {
        Some(Reserved::KeyPutString)
    } else {
        None
    }
}

fn of_eleven_letters(word: &[u8]) -> Option<Reserved>
    ensures { result ≡ written_as spelling (words_of 11) word.now }
{
    if word == b"zero_divide".as_slice() {
        Some(Reserved::KeyZeroDivide)
    } else {
        None
    }
}

fn of_twelve_letters(word: &[u8]) -> Option<Reserved>
    ensures { result ≡ written_as spelling (words_of 12) word.now }
{
    if word == b"end_of_input".as_slice() {
        Some(Reserved::KeyEndOfInput)
    } else {
        None
    }
}
