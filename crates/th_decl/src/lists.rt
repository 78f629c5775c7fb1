//! Reading lists.
ghost use Rattle.std.specs.Prelude.{◌≡◌, ◌<◌, ◌++◌, [], ◌∷◌, map, MatchResult};
ghost use Rattle.th_tree.specs.declared.tokens.Sym.TheVariants.{Comma};
ghost use Rattle.th_tree.specs.declared.lexeme.Mark.TheVariants.{Symbol, Word};
ghost use Rattle.th_tree.specs.declared.tokens.Reserved.TheVariants.{KeyHidden, KeyIter, KeyClass, KeyRoutine, KeyException, KeyType};
ghost use Rattle.th_tree.specs.View.{formal_of, named_of};
ghost use Rattle.th_tree.specs.DeclView.{sig_of, clause_of, field_assign_of, method_of, interface_item_of, module_item_of};
ghost use Rattle.th_syntax.specs.declared.step.Stop.TheVariants.{Memory};
ghost use Rattle.th_syntax.specs.Read.{peek, in_set, code};
ghost use Rattle.th_syntax.specs.Gives.{Gives};
ghost use Rattle.th_syntax.specs.Parse.{read_name, read_ref, read_named, read_formal};
ghost use Rattle.th_decl.specs.Parse.{listed, clause, hidden_sigs, field_assigns, methods, fields, ended_sigs, interface_items, module_items};

use crate::heads::{clause, ended_sig, hidden_sig};
use crate::items::{field, field_assign, interface_item, method, module_item};
use th_syntax::{Reader, Step, Stop, at_symbol, at_word, name, reference, symbol};
use th_tree::{
    ClauseTree, FieldAssign, Formal, Ident, InterfaceItem, Lexeme, Mark, MethodTree, ModuleItem,
    NamedTree, RefTree, Reserved, SigTree, Sym,
};

/// Appends to the list.
fn pushed<'a, T: Drop>(list: &mut Vec<T>, one: T) -> Result<(), Stop<'a>>
    ensures { MatchResult result (λ _. list.new.items ≡ list.old.items ++ one ∷ []) (λ e. e ≡ Memory) }
{
    match list.push(one) {
        Ok(()) => Ok(()),
        Err(_) => Err(Stop::Memory),
    }
}

/// Names with commas between them.
pub fn names<'a>(reader: Reader, tokens: &'a [Lexeme]) -> Step<'a, Vec<Ident>>
    ensures { Gives (λ x. x.0.items) (λ x. x.1.now) result (listed (Symbol Comma) (read_name) reader.most tokens.now) }
{
    let mut found = Vec::new(reader.alloc);
    let mut rest = tokens;
    for _ in 0..reader.most {
        let (one, after) = name(rest)?;
        pushed(&mut found, one)?;
        if !at_symbol(after, Sym::Comma) {
            return Ok((found, after));
        }
        let (_, next) = symbol(after, Sym::Comma)?;
        rest = next;
    }
    let (one, after) = name(rest)?;
    pushed(&mut found, one)?;
    Ok((found, after))
}

/// References with commas between them.
pub fn references<'a>(reader: Reader, tokens: &'a [Lexeme]) -> Step<'a, Vec<RefTree>>
    ensures { Gives (λ x. x.0.items) (λ x. x.1.now) result (listed (Symbol Comma) (read_ref) reader.most tokens.now) }
{
    let mut found = Vec::new(reader.alloc);
    let mut rest = tokens;
    for _ in 0..reader.most {
        let (one, after) = reference(rest)?;
        pushed(&mut found, one)?;
        if !at_symbol(after, Sym::Comma) {
            return Ok((found, after));
        }
        let (_, next) = symbol(after, Sym::Comma)?;
        rest = next;
    }
    let (one, after) = reference(rest)?;
    pushed(&mut found, one)?;
    Ok((found, after))
}

/// Names with types and with commas between them.
pub fn formal_list<'a>(reader: Reader, room: u32, tokens: &'a [Lexeme]) -> Step<'a, Vec<Formal>>
    requires { room < 999 }
    ensures { Gives (λ x. map formal_of x.0.items) (λ x. x.1.now) result (listed (Symbol Comma) (read_formal room) reader.most tokens.now) }
{
    let mut found = Vec::new(reader.alloc);
    let mut rest = tokens;
    for _ in 0..reader.most {
        let (one, after) = reader.formal(room, rest)?;
        pushed(&mut found, one)?;
        if !at_symbol(after, Sym::Comma) {
            return Ok((found, after));
        }
        let (_, next) = symbol(after, Sym::Comma)?;
        rest = next;
    }
    let (one, after) = reader.formal(room, rest)?;
    pushed(&mut found, one)?;
    Ok((found, after))
}

/// Named types with commas between them.
pub fn named_list<'a>(reader: Reader, room: u32, tokens: &'a [Lexeme]) -> Step<'a, Vec<NamedTree>>
    requires { room < 999 }
    ensures { Gives (λ x. map named_of x.0.items) (λ x. x.1.now) result (listed (Symbol Comma) (read_named room) reader.most tokens.now) }
{
    let mut found = Vec::new(reader.alloc);
    let mut rest = tokens;
    for _ in 0..reader.most {
        let (one, after) = reader.named(room, rest)?;
        pushed(&mut found, one.tree)?;
        if !at_symbol(after, Sym::Comma) {
            return Ok((found, after));
        }
        let (_, next) = symbol(after, Sym::Comma)?;
        rest = next;
    }
    let (one, after) = reader.named(room, rest)?;
    pushed(&mut found, one.tree)?;
    Ok((found, after))
}

/// Clauses with commas between them.
pub fn clause_list<'a>(reader: Reader, room: u32, tokens: &'a [Lexeme]) -> Step<'a, Vec<ClauseTree>>
    requires { room < 999 }
    ensures { Gives (λ x. map clause_of x.0.items) (λ x. x.1.now) result (listed (Symbol Comma) (clause room) reader.most tokens.now) }
{
    let mut found = Vec::new(reader.alloc);
    let mut rest = tokens;
    for _ in 0..reader.most {
        let (one, after) = clause(reader, room, rest)?;
        pushed(&mut found, one)?;
        if !at_symbol(after, Sym::Comma) {
            return Ok((found, after));
        }
        let (_, next) = symbol(after, Sym::Comma)?;
        rest = next;
    }
    let (one, after) = clause(reader, room, rest)?;
    pushed(&mut found, one)?;
    Ok((found, after))
}

/// Hidden signatures.
pub fn hidden_sigs<'a>(reader: Reader, room: u32, tokens: &'a [Lexeme]) -> Step<'a, Vec<SigTree>>
    requires { room < 999 }
    ensures { Gives (λ x. map sig_of x.0.items) (λ x. x.1.now) result (hidden_sigs room reader.most tokens.now) }
{
    let mut found = Vec::new(reader.alloc);
    let mut rest = tokens;
    for _ in 0..reader.most {
        if !at_word(rest, Reserved::KeyHidden) {
            return Ok((found, rest));
        }
        let (one, after) = hidden_sig(reader, room, rest)?;
        pushed(&mut found, one)?;
        rest = after;
    }
    Ok((found, rest))
}

/// Signatures, each with `;`.
pub fn ended_sigs<'a>(reader: Reader, room: u32, tokens: &'a [Lexeme]) -> Step<'a, Vec<SigTree>>
    requires { room < 999 }
    ensures { Gives (λ x. map sig_of x.0.items) (λ x. x.1.now) result (ended_sigs room reader.most tokens.now) }
{
    let mut found = Vec::new(reader.alloc);
    let mut rest = tokens;
    for _ in 0..reader.most {
        if !at_sig(rest) {
            return Ok((found, rest));
        }
        let (one, after) = ended_sig(reader, room, rest)?;
        pushed(&mut found, one)?;
        rest = after;
    }
    Ok((found, rest))
}

/// Fields.
pub fn fields<'a>(reader: Reader, room: u32, tokens: &'a [Lexeme]) -> Step<'a, Vec<Formal>>
    requires { room < 999 }
    ensures { Gives (λ x. map formal_of x.0.items) (λ x. x.1.now) result (fields room reader.most tokens.now) }
{
    let mut found = Vec::new(reader.alloc);
    let mut rest = tokens;
    for _ in 0..reader.most {
        if !at_word(rest, Reserved::KeyField) {
            return Ok((found, rest));
        }
        let (one, after) = field(reader, room, rest)?;
        pushed(&mut found, one)?;
        rest = after;
    }
    Ok((found, rest))
}

/// Assignments of fields.
pub fn field_assigns<'a>(
    reader: Reader,
    room: u32,
    tokens: &'a [Lexeme],
) -> Step<'a, Vec<FieldAssign>>
    requires { room < 999 }
    ensures { Gives (λ x. map field_assign_of x.0.items) (λ x. x.1.now) result (field_assigns room reader.most tokens.now) }
{
    let mut found = Vec::new(reader.alloc);
    let mut rest = tokens;
    for _ in 0..reader.most {
        if !at_name(rest) {
            return Ok((found, rest));
        }
        let (one, after) = field_assign(reader, room, rest)?;
        pushed(&mut found, one)?;
        rest = after;
    }
    Ok((found, rest))
}

/// Methods.
pub fn methods<'a>(reader: Reader, room: u32, tokens: &'a [Lexeme]) -> Step<'a, Vec<MethodTree>>
    requires { room < 999 }
    ensures { Gives (λ x. map method_of x.0.items) (λ x. x.1.now) result (methods room reader.most tokens.now) }
{
    let mut found = Vec::new(reader.alloc);
    let mut rest = tokens;
    for _ in 0..reader.most {
        if !at_method(rest) {
            return Ok((found, rest));
        }
        let (one, after) = method(reader, room, rest)?;
        pushed(&mut found, one)?;
        rest = after;
    }
    Ok((found, rest))
}

/// Items of an interface.
pub fn interface_items<'a>(
    reader: Reader,
    room: u32,
    tokens: &'a [Lexeme],
) -> Step<'a, Vec<InterfaceItem>>
    requires { room < 999 }
    ensures { Gives (λ x. map interface_item_of x.0.items) (λ x. x.1.now) result (interface_items room reader.most tokens.now) }
{
    let mut found = Vec::new(reader.alloc);
    let mut rest = tokens;
    for _ in 0..reader.most {
        if !at_interface_item(rest) {
            return Ok((found, rest));
        }
        let (one, after) = interface_item(reader, room, rest)?;
        pushed(&mut found, one)?;
        rest = after;
    }
    Ok((found, rest))
}

/// Items of a module.
pub fn module_items<'a>(
    reader: Reader,
    room: u32,
    tokens: &'a [Lexeme],
) -> Step<'a, Vec<ModuleItem>>
    requires { room < 999 }
    ensures { Gives (λ x. map module_item_of x.0.items) (λ x. x.1.now) result (module_items room reader.most tokens.now) }
{
    let mut found = Vec::new(reader.alloc);
    let mut rest = tokens;
    for _ in 0..reader.most {
        if !at_module_item(rest) {
            return Ok((found, rest));
        }
        let (one, after) = module_item(reader, room, rest)?;
        pushed(&mut found, one)?;
        rest = after;
    }
    Ok((found, rest))
}

/// Whether a name is next.
fn at_name(tokens: &[Lexeme]) -> bool
    ensures { in_set (0 ∷ []) (peek tokens.now) ≡ result }
{
    matches!(
        tokens,
        [
            Lexeme {
                mark: Mark::Name(_),
                ..
            },
            ..
        ]
    )
}

/// Whether a signature may begin.
fn at_sig(tokens: &[Lexeme]) -> bool
    ensures { in_set (code (Word KeyIter) ∷ 0 ∷ []) (peek tokens.now) ≡ result }
{
    at_word(tokens, Reserved::KeyIter) || at_name(tokens)
}

/// Whether a method may begin.
fn at_method(tokens: &[Lexeme]) -> bool
    ensures { in_set (code (Word KeyHidden) ∷ code (Word KeyIter) ∷ 0 ∷ []) (peek tokens.now) ≡ result }
{
    at_word(tokens, Reserved::KeyHidden) || at_sig(tokens)
}

/// Whether an item of a module may begin.
fn at_module_item(tokens: &[Lexeme]) -> bool
    ensures { in_set (code (Word KeyClass) ∷ code (Word KeyIter) ∷ code (Word KeyRoutine) ∷ []) (peek tokens.now) ≡ result }
{
    at_word(tokens, Reserved::KeyClass)
        || at_word(tokens, Reserved::KeyIter)
        || at_word(tokens, Reserved::KeyRoutine)
}

/// Whether an item of an interface may begin.
fn at_interface_item(tokens: &[Lexeme]) -> bool
    ensures { in_set (code (Word KeyException) ∷ code (Word KeyType) ∷ code (Word KeyClass) ∷ code (Word KeyIter) ∷ code (Word KeyRoutine) ∷ []) (peek tokens.now) ≡ result }
{
    at_word(tokens, Reserved::KeyException)
        || at_word(tokens, Reserved::KeyType)
        || at_module_item(tokens)
}
