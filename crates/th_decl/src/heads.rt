//! Reading signatures and the heads of items.
ghost use Rattle.std.specs.Prelude.{◌≡◌, ◌<◌, map};
ghost use Rattle.th_tree.specs.View.{type_of, types_of, formal_of, option_of, named_of};
ghost use Rattle.th_tree.specs.DeclView.{sig_of, clause_of, routine_head_of, class_head_of, init_head_of};
ghost use Rattle.th_syntax.specs.Gives.{Gives};
ghost use Rattle.th_decl.specs.Parse.{uses, params, signals, formals, in_parens, returns, yields, iter_sig, plain_sig, sig, type_formals, clause, clauses, iter_head, routine_head, head, inherits, class_head, init_head, hidden_sig, supertypes, ended_sig};

use crate::lists::{clause_list, formal_list, named_list, names, references};
use th_syntax::{Reader, Step, at_symbol, at_word, name, symbol, word};
use th_tree::{
    ClassHead, ClauseTree, Formal, Ident, InitHead, Lexeme, NamedTree, RefTree, Reserved,
    RoutineHead, SigTree, Sym, TypeList, TypeTree,
};

/// The names after `uses`, or none.
pub fn uses<'a>(reader: Reader, tokens: &'a [Lexeme]) -> Step<'a, Vec<Ident>>
    ensures { Gives (λ x. x.0.items) (λ x. x.1.now) result (uses reader.most tokens.now) }
{
    if !at_word(tokens, Reserved::KeyUses) {
        return Ok((Vec::new(reader.alloc), tokens));
    }
    let (_, rest) = word(tokens, Reserved::KeyUses)?;
    names(reader, rest)
}

/// Type parameters, or none.
pub fn params<'a>(reader: Reader, tokens: &'a [Lexeme]) -> Step<'a, Vec<Ident>>
    ensures { Gives (λ x. x.0.items) (λ x. x.1.now) result (params reader.most tokens.now) }
{
    if !at_symbol(tokens, Sym::OpenSquare) {
        return Ok((Vec::new(reader.alloc), tokens));
    }
    let (_, rest) = symbol(tokens, Sym::OpenSquare)?;
    let (found, rest) = names(reader, rest)?;
    let (_, rest) = symbol(rest, Sym::CloseSquare)?;
    Ok((found, rest))
}

/// The exceptions after `signals`, or none.
pub fn signals<'a>(reader: Reader, tokens: &'a [Lexeme]) -> Step<'a, Vec<RefTree>>
    ensures { Gives (λ x. x.0.items) (λ x. x.1.now) result (signals reader.most tokens.now) }
{
    if !at_word(tokens, Reserved::KeySignals) {
        return Ok((Vec::new(reader.alloc), tokens));
    }
    let (_, rest) = word(tokens, Reserved::KeySignals)?;
    let (_, rest) = symbol(rest, Sym::OpenParen)?;
    let (found, rest) = references(reader, rest)?;
    let (_, rest) = symbol(rest, Sym::CloseParen)?;
    Ok((found, rest))
}

/// Formals in parentheses.
pub fn formals<'a>(reader: Reader, room: u32, tokens: &'a [Lexeme]) -> Step<'a, Vec<Formal>>
    requires { room < 999 }
    ensures { Gives (λ x. map formal_of x.0.items) (λ x. x.1.now) result (formals room reader.most tokens.now) }
{
    let (_, rest) = symbol(tokens, Sym::OpenParen)?;
    if at_symbol(rest, Sym::CloseParen) {
        let (_, rest) = symbol(rest, Sym::CloseParen)?;
        return Ok((Vec::new(reader.alloc), rest));
    }
    let (found, rest) = formal_list(reader, room, rest)?;
    let (_, rest) = symbol(rest, Sym::CloseParen)?;
    Ok((found, rest))
}

/// A type in parentheses.
pub fn in_parens<'a>(reader: Reader, room: u32, tokens: &'a [Lexeme]) -> Step<'a, TypeTree>
    requires { room < 999 }
    ensures { Gives (λ x. type_of x.0) (λ x. x.1.now) result (in_parens room reader.most tokens.now) }
{
    let (_, rest) = symbol(tokens, Sym::OpenParen)?;
    let (found, rest) = reader.type_tree(room, rest)?;
    let (_, rest) = symbol(rest, Sym::CloseParen)?;
    Ok((found.tree, rest))
}

/// The result after `returns`, or none.
fn returns<'a>(reader: Reader, room: u32, tokens: &'a [Lexeme]) -> Step<'a, Option<TypeTree>>
    requires { room < 999 }
    ensures { Gives (λ x. option_of type_of x.0) (λ x. x.1.now) result (returns room reader.most tokens.now) }
{
    if !at_word(tokens, Reserved::KeyReturns) {
        return Ok((None, tokens));
    }
    let (_, rest) = word(tokens, Reserved::KeyReturns)?;
    let (found, rest) = in_parens(reader, room, rest)?;
    Ok((Some(found), rest))
}

/// The type after `yields`.
fn yields<'a>(reader: Reader, room: u32, tokens: &'a [Lexeme]) -> Step<'a, Option<TypeTree>>
    requires { room < 999 }
    ensures { Gives (λ x. option_of type_of x.0) (λ x. x.1.now) result (yields room reader.most tokens.now) }
{
    let (_, rest) = word(tokens, Reserved::KeyYields)?;
    let (found, rest) = in_parens(reader, room, rest)?;
    Ok((Some(found), rest))
}

/// A method's signature.
pub fn sig<'a>(reader: Reader, room: u32, tokens: &'a [Lexeme]) -> Step<'a, SigTree>
    requires { room < 999 }
    ensures { Gives (λ x. sig_of x.0) (λ x. x.1.now) result (sig room reader.most tokens.now) }
{
    if at_word(tokens, Reserved::KeyIter) {
        return iter_sig(reader, room, tokens);
    }
    let (name, rest) = name(tokens)?;
    let (formals, rest) = formals(reader, room, rest)?;
    let (gives, rest) = returns(reader, room, rest)?;
    let (signals, rest) = signals(reader, rest)?;
    Ok((
        SigTree {
            at: name.at,
            iterator: false,
            name,
            formals,
            gives,
            signals,
        },
        rest,
    ))
}

/// An iterator's signature.
fn iter_sig<'a>(reader: Reader, room: u32, tokens: &'a [Lexeme]) -> Step<'a, SigTree>
    requires { room < 999 }
    ensures { Gives (λ x. sig_of x.0) (λ x. x.1.now) result (iter_sig room reader.most tokens.now) }
{
    let (at, rest) = word(tokens, Reserved::KeyIter)?;
    let (name, rest) = name(rest)?;
    let (formals, rest) = formals(reader, room, rest)?;
    let (gives, rest) = yields(reader, room, rest)?;
    let (signals, rest) = signals(reader, rest)?;
    Ok((
        SigTree {
            at,
            iterator: true,
            name,
            formals,
            gives,
            signals,
        },
        rest,
    ))
}

/// A signature and `;`.
pub fn ended_sig<'a>(reader: Reader, room: u32, tokens: &'a [Lexeme]) -> Step<'a, SigTree>
    requires { room < 999 }
    ensures { Gives (λ x. sig_of x.0) (λ x. x.1.now) result (ended_sig room reader.most tokens.now) }
{
    let (found, rest) = sig(reader, room, tokens)?;
    let (_, rest) = symbol(rest, Sym::Semicolon)?;
    Ok((found, rest))
}

/// `hidden`, a signature and `;`.
pub fn hidden_sig<'a>(reader: Reader, room: u32, tokens: &'a [Lexeme]) -> Step<'a, SigTree>
    requires { room < 999 }
    ensures { Gives (λ x. sig_of x.0) (λ x. x.1.now) result (hidden_sig room reader.most tokens.now) }
{
    let (_, rest) = word(tokens, Reserved::KeyHidden)?;
    let (found, rest) = sig(reader, room, rest)?;
    let (_, rest) = symbol(rest, Sym::Semicolon)?;
    Ok((found, rest))
}

/// Types in parentheses.
fn type_formals<'a>(reader: Reader, room: u32, tokens: &'a [Lexeme]) -> Step<'a, TypeList>
    requires { room < 999 }
    ensures { Gives (λ x. types_of x.0) (λ x. x.1.now) result (type_formals room reader.most tokens.now) }
{
    let (_, rest) = symbol(tokens, Sym::OpenParen)?;
    if at_symbol(rest, Sym::CloseParen) {
        let (_, rest) = symbol(rest, Sym::CloseParen)?;
        return Ok((TypeList::NoType, rest));
    }
    let (found, rest) = reader.types(room, rest)?;
    let (_, rest) = symbol(rest, Sym::CloseParen)?;
    Ok((found.trees, rest))
}

/// A clause after `where`.
pub fn clause<'a>(reader: Reader, room: u32, tokens: &'a [Lexeme]) -> Step<'a, ClauseTree>
    requires { room < 999 }
    ensures { Gives (λ x. clause_of x.0) (λ x. x.1.now) result (clause room reader.most tokens.now) }
{
    let (param, rest) = name(tokens)?;
    let (_, rest) = word(rest, Reserved::KeyHas)?;
    let (method, rest) = name(rest)?;
    let (formals, rest) = type_formals(reader, room, rest)?;
    let (gives, rest) = returns(reader, room, rest)?;
    let (signals, rest) = signals(reader, rest)?;
    Ok((
        ClauseTree {
            param,
            method,
            formals,
            gives,
            signals,
        },
        rest,
    ))
}

/// The clauses after `where`, or none.
fn clauses<'a>(reader: Reader, room: u32, tokens: &'a [Lexeme]) -> Step<'a, Vec<ClauseTree>>
    requires { room < 999 }
    ensures { Gives (λ x. map clause_of x.0.items) (λ x. x.1.now) result (clauses room reader.most tokens.now) }
{
    if !at_word(tokens, Reserved::KeyWhere) {
        return Ok((Vec::new(reader.alloc), tokens));
    }
    let (_, rest) = word(tokens, Reserved::KeyWhere)?;
    clause_list(reader, room, rest)
}

/// The head of a routine or an iterator.
pub fn head<'a>(reader: Reader, room: u32, tokens: &'a [Lexeme]) -> Step<'a, RoutineHead>
    requires { room < 999 }
    ensures { Gives (λ x. routine_head_of x.0) (λ x. x.1.now) result (head room reader.most tokens.now) }
{
    if at_word(tokens, Reserved::KeyIter) {
        return iter_head(reader, room, tokens);
    }
    let (at, rest) = word(tokens, Reserved::KeyRoutine)?;
    let (name, rest) = name(rest)?;
    let (params, rest) = params(reader, rest)?;
    let (formals, rest) = formals(reader, room, rest)?;
    let (gives, rest) = returns(reader, room, rest)?;
    let (signals, rest) = signals(reader, rest)?;
    let (clauses, rest) = clauses(reader, room, rest)?;
    Ok((
        RoutineHead {
            at,
            iterator: false,
            name,
            params,
            formals,
            gives,
            signals,
            clauses,
        },
        rest,
    ))
}

/// The head of an iterator.
fn iter_head<'a>(reader: Reader, room: u32, tokens: &'a [Lexeme]) -> Step<'a, RoutineHead>
    requires { room < 999 }
    ensures { Gives (λ x. routine_head_of x.0) (λ x. x.1.now) result (iter_head room reader.most tokens.now) }
{
    let (at, rest) = word(tokens, Reserved::KeyIter)?;
    let (name, rest) = name(rest)?;
    let (params, rest) = params(reader, rest)?;
    let (formals, rest) = formals(reader, room, rest)?;
    let (gives, rest) = yields(reader, room, rest)?;
    let (signals, rest) = signals(reader, rest)?;
    let (clauses, rest) = clauses(reader, room, rest)?;
    Ok((
        RoutineHead {
            at,
            iterator: true,
            name,
            params,
            formals,
            gives,
            signals,
            clauses,
        },
        rest,
    ))
}

/// The class after `inherits`, or none.
fn inherits<'a>(reader: Reader, room: u32, tokens: &'a [Lexeme]) -> Step<'a, Option<NamedTree>>
    requires { room < 999 }
    ensures { Gives (λ x. option_of named_of x.0) (λ x. x.1.now) result (inherits room reader.most tokens.now) }
{
    if !at_word(tokens, Reserved::KeyInherits) {
        return Ok((None, tokens));
    }
    let (_, rest) = word(tokens, Reserved::KeyInherits)?;
    let (found, rest) = reader.named(room, rest)?;
    Ok((Some(found.tree), rest))
}

/// The head of a class.
pub fn class_head<'a>(reader: Reader, room: u32, tokens: &'a [Lexeme]) -> Step<'a, ClassHead>
    requires { room < 999 }
    ensures { Gives (λ x. class_head_of x.0) (λ x. x.1.now) result (class_head room reader.most tokens.now) }
{
    let (at, rest) = word(tokens, Reserved::KeyClass)?;
    let (name, rest) = name(rest)?;
    let (params, rest) = params(reader, rest)?;
    let (_, rest) = word(rest, Reserved::KeyFor)?;
    let (of, rest) = reader.named(room, rest)?;
    let (inherits, rest) = inherits(reader, room, rest)?;
    let (clauses, rest) = clauses(reader, room, rest)?;
    let (_, rest) = symbol(rest, Sym::Semicolon)?;
    Ok((
        ClassHead {
            at,
            name,
            params,
            of: of.tree,
            inherits,
            clauses,
        },
        rest,
    ))
}

/// The head of an initializer.
pub fn init_head<'a>(reader: Reader, room: u32, tokens: &'a [Lexeme]) -> Step<'a, InitHead>
    requires { room < 999 }
    ensures { Gives (λ x. init_head_of x.0) (λ x. x.1.now) result (init_head room reader.most tokens.now) }
{
    let (at, rest) = word(tokens, Reserved::KeyInit)?;
    let (formals, rest) = formals(reader, room, rest)?;
    let (signals, rest) = signals(reader, rest)?;
    Ok((
        InitHead {
            at,
            formals,
            signals,
        },
        rest,
    ))
}

/// The types after `<`, or none.
pub fn supertypes<'a>(reader: Reader, room: u32, tokens: &'a [Lexeme]) -> Step<'a, Vec<NamedTree>>
    requires { room < 999 }
    ensures { Gives (λ x. map named_of x.0.items) (λ x. x.1.now) result (supertypes room reader.most tokens.now) }
{
    if !at_symbol(tokens, Sym::Less) {
        return Ok((Vec::new(reader.alloc), tokens));
    }
    let (_, rest) = symbol(tokens, Sym::Less)?;
    named_list(reader, room, rest)
}
