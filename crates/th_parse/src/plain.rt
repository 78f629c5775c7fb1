//! Reading the statements that have no statements in them.
ghost use Rattle.std.specs.Prelude.{◌≡◌, ◌<◌, nat_lt, Some, if◌then◌else◌};
ghost use Rattle.th_tree.specs.Trees.{put_byte_stmt, put_int_stmt, put_text_stmt};
ghost use Rattle.th_tree.specs.View.{expr_of, formal_of, stmt_of as tree_of, option_of};
ghost use Rattle.th_syntax.specs.Read.{Bad, peek, in_set};
ghost use Rattle.th_tree.specs.declared.lexeme.Mark.TheVariants.{Word};
ghost use Rattle.th_tree.specs.declared.tokens.Reserved.TheVariants.{KeyPutByte, KeyPutInt, KeyPutString};
ghost use Rattle.th_parse.specs.Parse.{read_exc, read_body, var_of, post_stmt_of, break_of, return_of, yield_of, raise_of, variable_of, put_of, stmt_first};
ghost use Rattle.th_syntax.specs.Gives.{Gives};
ghost use Rattle.th_parse.specs.Parts.{put_read};

use std::alloc::Global;
use th_syntax::{Level, Reader, Step, Stop, at_symbol, at_word, reference, symbol, word};
use th_tree::{ExcTree, Expr, Formal, Lexeme, Mark, Reserved, Stmt, Sym};

/// An exception.
pub fn exception(tokens: &[Lexeme]) -> Step<'_, ExcTree>
    ensures { Gives (λ x. x.0) (λ x. x.1.now) result (read_exc 0 tokens.now) }
{
    if at_word(tokens, Reserved::KeyOverflow) {
        let (at, rest) = word(tokens, Reserved::KeyOverflow)?;
        return Ok((ExcTree::Overflow(at), rest));
    }
    if at_word(tokens, Reserved::KeyZeroDivide) {
        let (at, rest) = word(tokens, Reserved::KeyZeroDivide)?;
        return Ok((ExcTree::ZeroDivide(at), rest));
    }
    if at_word(tokens, Reserved::KeyBounds) {
        let (at, rest) = word(tokens, Reserved::KeyBounds)?;
        return Ok((ExcTree::Bounds(at), rest));
    }
    if at_word(tokens, Reserved::KeyEndOfInput) {
        let (at, rest) = word(tokens, Reserved::KeyEndOfInput)?;
        return Ok((ExcTree::EndOfInput(at), rest));
    }
    let (item, rest) = reference(tokens)?;
    Ok((ExcTree::Declared(item), rest))
}

/// `break;`
pub fn break_stmt(tokens: &[Lexeme]) -> Step<'_, Stmt>
    ensures { Gives (λ x. tree_of x.0) (λ x. x.1.now) result (break_of 0 (read_body 0) 0 tokens.now) }
{
    let (at, rest) = word(tokens, Reserved::KeyBreak)?;
    let (_, rest) = symbol(rest, Sym::Semicolon)?;
    Ok((Stmt::Break(at), rest))
}

/// `var`, where there is room.
pub fn var_stmt<'a>(reader: Reader, r: u32, tokens: &'a [Lexeme]) -> Step<'a, Stmt>
    requires { r < 999 }
    ensures { Gives (λ x. tree_of x.0) (λ x. x.1.now) result (if nat_lt 0 r then var_of r (read_body r) reader.most tokens.now else Bad tokens.now) }
{
    if r == 0 {
        return Err(Stop::Wrong(tokens));
    }
    let (at, rest) = word(tokens, Reserved::KeyVar)?;
    let (of, rest) = reader.formal(r, rest)?;
    let (_, rest) = symbol(rest, Sym::Becomes)?;
    let (value, rest) = reader.expr(Level::Expr, r, rest)?;
    let (_, rest) = symbol(rest, Sym::Semicolon)?;
    Ok((Stmt::Var(at, of, value.tree), rest))
}

/// An expression as a statement or an assignment, where there is room.
pub fn post_stmt<'a>(reader: Reader, r: u32, tokens: &'a [Lexeme]) -> Step<'a, Stmt>
    requires { r < 999 }
    ensures { Gives (λ x. tree_of x.0) (λ x. x.1.now) result (if nat_lt 0 r then post_stmt_of r (read_body r) reader.most tokens.now else Bad tokens.now) }
{
    if r == 0 {
        return Err(Stop::Wrong(tokens));
    }
    let (of, rest) = reader.expr(Level::Post, r, tokens)?;
    if !at_symbol(rest, Sym::Becomes) {
        let (_, rest) = symbol(rest, Sym::Semicolon)?;
        return Ok((Stmt::Plain(of.start, of.tree), rest));
    }
    let (_, rest) = symbol(rest, Sym::Becomes)?;
    let (value, rest) = reader.expr(Level::Expr, r, rest)?;
    let (_, rest) = symbol(rest, Sym::Semicolon)?;
    Ok((Stmt::Assign(of.start, of.tree, value.tree), rest))
}

/// `return`
pub fn return_stmt<'a>(reader: Reader, r: u32, tokens: &'a [Lexeme]) -> Step<'a, Stmt>
    requires { r < 999 }
    ensures { Gives (λ x. tree_of x.0) (λ x. x.1.now) result (return_of r (read_body r) reader.most tokens.now) }
{
    let (at, rest) = word(tokens, Reserved::KeyReturn)?;
    if at_symbol(rest, Sym::Semicolon) {
        let (_, rest) = symbol(rest, Sym::Semicolon)?;
        return Ok((Stmt::Return(at), rest));
    }
    if r == 0 {
        return Err(Stop::Wrong(rest));
    }
    let (value, rest) = reader.expr(Level::Expr, r, rest)?;
    let (_, rest) = symbol(rest, Sym::Semicolon)?;
    Ok((Stmt::ReturnValue(at, value.tree), rest))
}

/// `yield`, where there is room.
pub fn yield_stmt<'a>(reader: Reader, r: u32, tokens: &'a [Lexeme]) -> Step<'a, Stmt>
    requires { r < 999 }
    ensures { Gives (λ x. tree_of x.0) (λ x. x.1.now) result (if nat_lt 0 r then yield_of r (read_body r) reader.most tokens.now else Bad tokens.now) }
{
    if r == 0 {
        return Err(Stop::Wrong(tokens));
    }
    let (at, rest) = word(tokens, Reserved::KeyYield)?;
    let (value, rest) = reader.expr(Level::Expr, r, rest)?;
    let (_, rest) = symbol(rest, Sym::Semicolon)?;
    Ok((Stmt::Yield(at, value.tree), rest))
}

/// `raise`
pub fn raise_stmt<'a>(reader: Reader, r: u32, tokens: &'a [Lexeme]) -> Step<'a, Stmt>
    requires { r < 999 }
    ensures { Gives (λ x. tree_of x.0) (λ x. x.1.now) result (raise_of r (read_body r) reader.most tokens.now) }
{
    let (at, rest) = word(tokens, Reserved::KeyRaise)?;
    let (exc, rest) = exception(rest)?;
    if !at_symbol(rest, Sym::OpenParen) {
        let (_, rest) = symbol(rest, Sym::Semicolon)?;
        return Ok((Stmt::Raise(at, exc), rest));
    }
    if r == 0 {
        return Err(Stop::Wrong(rest));
    }
    let (_, rest) = symbol(rest, Sym::OpenParen)?;
    let (value, rest) = reader.expr(Level::Expr, r, rest)?;
    let (_, rest) = symbol(rest, Sym::CloseParen)?;
    let (_, rest) = symbol(rest, Sym::Semicolon)?;
    Ok((Stmt::RaiseValue(at, exc, value.tree), rest))
}

/// A word, an expression in parentheses and `;`, where there is room: the byte where it starts and the expression.
pub fn put<'a>(reader: Reader, r: u32, key: Reserved, tokens: &'a [Lexeme]) -> Step<'a, (u32, Expr)>
    requires { r < 999 }
    ensures { Gives (λ x. (x.0.0, expr_of x.0.1)) (λ x. x.1.now) result (put_read r key reader.most tokens.now) }
{
    if r == 0 {
        return Err(Stop::Wrong(tokens));
    }
    let (at, rest) = word(tokens, key)?;
    let (_, rest) = symbol(rest, Sym::OpenParen)?;
    let (value, rest) = reader.expr(Level::Expr, r, rest)?;
    let (_, rest) = symbol(rest, Sym::CloseParen)?;
    let (_, rest) = symbol(rest, Sym::Semicolon)?;
    Ok(((at, value.tree), rest))
}

/// The variable of a handler, or nothing.
pub fn variable<'a>(reader: Reader, r: u32, tokens: &'a [Lexeme]) -> Step<'a, Option<Formal>>
    requires { r < 999 }
    ensures { Gives (λ x. option_of formal_of x.0) (λ x. x.1.now) result (variable_of r (read_body r) reader.most tokens.now) }
{
    if !at_symbol(tokens, Sym::OpenParen) {
        return Ok((None, tokens));
    }
    if r == 0 {
        return Err(Stop::Wrong(tokens));
    }
    let (_, rest) = symbol(tokens, Sym::OpenParen)?;
    let (of, rest) = reader.formal(r, rest)?;
    let (_, rest) = symbol(rest, Sym::CloseParen)?;
    Ok((Some(of), rest))
}

/// `put_byte`, where there is room.
pub fn put_byte<'a>(reader: Reader, r: u32, tokens: &'a [Lexeme]) -> Step<'a, Stmt>
    requires { r < 999 }
    ensures { Gives (λ x. tree_of x.0) (λ x. x.1.now) result (if nat_lt 0 r then put_of r (read_body r) (Word KeyPutByte) put_byte_stmt reader.most tokens.now else Bad tokens.now) }
{
    let ((at, value), rest) = put(reader, r, Reserved::KeyPutByte, tokens)?;
    Ok((Stmt::PutByte(at, value), rest))
}

/// `put_int`, where there is room.
pub fn put_int<'a>(reader: Reader, r: u32, tokens: &'a [Lexeme]) -> Step<'a, Stmt>
    requires { r < 999 }
    ensures { Gives (λ x. tree_of x.0) (λ x. x.1.now) result (if nat_lt 0 r then put_of r (read_body r) (Word KeyPutInt) put_int_stmt reader.most tokens.now else Bad tokens.now) }
{
    let ((at, value), rest) = put(reader, r, Reserved::KeyPutInt, tokens)?;
    Ok((Stmt::PutInt(at, value), rest))
}

/// `put_string`, where there is room.
pub fn put_string<'a>(reader: Reader, r: u32, tokens: &'a [Lexeme]) -> Step<'a, Stmt>
    requires { r < 999 }
    ensures { Gives (λ x. tree_of x.0) (λ x. x.1.now) result (if nat_lt 0 r then put_of r (read_body r) (Word KeyPutString) put_text_stmt reader.most tokens.now else Bad tokens.now) }
{
    let ((at, value), rest) = put(reader, r, Reserved::KeyPutString, tokens)?;
    Ok((Stmt::PutString(at, value), rest))
}

/// Whether a mark with which a statement begins is next.
pub fn starts_statement(tokens: &[Lexeme]) -> bool
    ensures { in_set stmt_first (peek tokens.now) ≡ result }
{
    match tokens {
        [token, ..] => is_start(token.mark),
        [] => false,
    }
}

fn is_start(mark: Mark) -> bool
    ensures { in_set stmt_first (Some mark) ≡ result }
{
    match mark {
        Mark::Name(_) | Mark::Number(_) | Mark::Text(_) => true,
        Mark::Symbol(sym) => matches!(sym, Sym::OpenParen),
        Mark::Word(word) => is_start_word(word),
    }
}

fn is_start_word(word: Reserved) -> bool
    ensures { in_set stmt_first (Some (Word word)) ≡ result }
{
    matches!(
        word,
        Reserved::KeyVar
            | Reserved::KeyIf
            | Reserved::KeyWhile
            | Reserved::KeyFor
            | Reserved::KeyReturn
            | Reserved::KeyYield
            | Reserved::KeyRaise
            | Reserved::KeyBegin
            | Reserved::KeyPutByte
            | Reserved::KeyPutInt
            | Reserved::KeyPutString
            | Reserved::KeyBreak
            | Reserved::KeyTrue
            | Reserved::KeyFalse
            | Reserved::KeySelf
            | Reserved::KeySuper
            | Reserved::KeyNew
            | Reserved::KeyGetByte
    )
}
