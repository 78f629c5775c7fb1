//! Reading classes, types, routines, and the items of texts.
ghost use Rattle.std.specs.Prelude.{◌≡◌, ◌<◌};
ghost use Rattle.th_tree.specs.View.{type_of, formal_of, option_of};
ghost use Rattle.th_tree.specs.DeclView.{routine_of, interface_class_of, super_call_of, field_assign_of, init_of, method_of, class_of, type_decl_of, exception_of, interface_item_of, interface_of, module_item_of, module_of};
ghost use Rattle.th_syntax.specs.Gives.{Gives};
ghost use Rattle.th_decl.specs.Parse.{argument, interface_class, super_call, super_part, field_assign, init, hidden_method, method, field, class, type_decl, exception, interface_item, interface, routine, module_item, implements, whole_module};

use crate::heads::{class_head, head, in_parens, init_head, params, sig, supertypes, uses};
use crate::lists::{
    ended_sigs, field_assigns, fields, hidden_sigs, interface_items, methods, module_items,
};
use th_parse::body_tree;
use th_syntax::{Level, Reader, Step, at_symbol, at_word, name, symbol, word};
use th_tree::{
    ClassDecl, ExceptionDecl, FieldAssign, Formal, Ident, InitTree, Interface, InterfaceClass,
    InterfaceItem, Lexeme, MethodTree, Module, ModuleItem, Reserved, Routine, SuperCall, Sym,
    TypeDecl, TypeTree,
};

/// A class of an interface.
fn interface_class<'a>(reader: Reader, room: u32, tokens: &'a [Lexeme]) -> Step<'a, InterfaceClass>
    requires { room < 999 }
    ensures { Gives (λ x. interface_class_of x.0) (λ x. x.1.now) result (interface_class room reader.most tokens.now) }
{
    let (head, rest) = class_head(reader, room, tokens)?;
    let (hidden, rest) = hidden_sigs(reader, room, rest)?;
    let (init, rest) = init_head(reader, room, rest)?;
    let (_, rest) = symbol(rest, Sym::Semicolon)?;
    let (_, rest) = word(rest, Reserved::KeyEnd)?;
    Ok((InterfaceClass { head, hidden, init }, rest))
}

/// `super`, arguments and `;`.
fn super_call<'a>(reader: Reader, room: u32, tokens: &'a [Lexeme]) -> Step<'a, SuperCall>
    requires { room < 999 }
    ensures { Gives (λ x. super_call_of x.0) (λ x. x.1.now) result (super_call room reader.most tokens.now) }
{
    let (at, rest) = word(tokens, Reserved::KeySuper)?;
    let (args, rest) = reader.args(room, rest)?;
    let (_, rest) = symbol(rest, Sym::Semicolon)?;
    Ok((
        SuperCall {
            at,
            args: args.trees,
        },
        rest,
    ))
}

/// The super call of an initializer, or none.
fn super_part<'a>(reader: Reader, room: u32, tokens: &'a [Lexeme]) -> Step<'a, Option<SuperCall>>
    requires { room < 999 }
    ensures { Gives (λ x. option_of super_call_of x.0) (λ x. x.1.now) result (super_part room reader.most tokens.now) }
{
    if !at_word(tokens, Reserved::KeySuper) {
        return Ok((None, tokens));
    }
    let (found, rest) = super_call(reader, room, tokens)?;
    Ok((Some(found), rest))
}

/// An assignment of an initializer.
pub fn field_assign<'a>(reader: Reader, room: u32, tokens: &'a [Lexeme]) -> Step<'a, FieldAssign>
    requires { room < 999 }
    ensures { Gives (λ x. field_assign_of x.0) (λ x. x.1.now) result (field_assign room reader.most tokens.now) }
{
    let (field, rest) = name(tokens)?;
    let (_, rest) = symbol(rest, Sym::Becomes)?;
    let (value, rest) = reader.expr(Level::Expr, room, rest)?;
    let (_, rest) = symbol(rest, Sym::Semicolon)?;
    Ok((
        FieldAssign {
            field,
            value: value.tree,
        },
        rest,
    ))
}

/// An initializer.
fn init<'a>(reader: Reader, room: u32, tokens: &'a [Lexeme]) -> Step<'a, InitTree>
    requires { room < 999 }
    ensures { Gives (λ x. init_of x.0) (λ x. x.1.now) result (init room reader.most tokens.now) }
{
    let (head, rest) = init_head(reader, room, tokens)?;
    let (super_call, rest) = super_part(reader, room, rest)?;
    let (assigns, rest) = field_assigns(reader, room, rest)?;
    let (_, rest) = word(rest, Reserved::KeyEnd)?;
    Ok((
        InitTree {
            head,
            super_call,
            assigns,
        },
        rest,
    ))
}

/// A method.
pub fn method<'a>(reader: Reader, room: u32, tokens: &'a [Lexeme]) -> Step<'a, MethodTree>
    requires { room < 999 }
    ensures { Gives (λ x. method_of x.0) (λ x. x.1.now) result (method room reader.most tokens.now) }
{
    if at_word(tokens, Reserved::KeyHidden) {
        return hidden_method(reader, room, tokens);
    }
    let (sig, rest) = sig(reader, room, tokens)?;
    let (body, rest) = body_tree(reader, room, rest)?;
    let (_, rest) = word(rest, Reserved::KeyEnd)?;
    Ok((
        MethodTree {
            at: sig.at,
            hidden: false,
            sig,
            body,
        },
        rest,
    ))
}

/// A method that is marked `hidden`.
fn hidden_method<'a>(reader: Reader, room: u32, tokens: &'a [Lexeme]) -> Step<'a, MethodTree>
    requires { room < 999 }
    ensures { Gives (λ x. method_of x.0) (λ x. x.1.now) result (hidden_method room reader.most tokens.now) }
{
    let (at, rest) = word(tokens, Reserved::KeyHidden)?;
    let (sig, rest) = sig(reader, room, rest)?;
    let (body, rest) = body_tree(reader, room, rest)?;
    let (_, rest) = word(rest, Reserved::KeyEnd)?;
    Ok((
        MethodTree {
            at,
            hidden: true,
            sig,
            body,
        },
        rest,
    ))
}

/// A field.
pub fn field<'a>(reader: Reader, room: u32, tokens: &'a [Lexeme]) -> Step<'a, Formal>
    requires { room < 999 }
    ensures { Gives (λ x. formal_of x.0) (λ x. x.1.now) result (field room reader.most tokens.now) }
{
    let (_, rest) = word(tokens, Reserved::KeyField)?;
    let (found, rest) = reader.formal(room, rest)?;
    let (_, rest) = symbol(rest, Sym::Semicolon)?;
    Ok((found, rest))
}

/// A class of a module.
fn class<'a>(reader: Reader, room: u32, tokens: &'a [Lexeme]) -> Step<'a, ClassDecl>
    requires { room < 999 }
    ensures { Gives (λ x. class_of x.0) (λ x. x.1.now) result (class room reader.most tokens.now) }
{
    let (head, rest) = class_head(reader, room, tokens)?;
    let (fields, rest) = fields(reader, room, rest)?;
    let (init, rest) = init(reader, room, rest)?;
    let (methods, rest) = methods(reader, room, rest)?;
    let (_, rest) = word(rest, Reserved::KeyEnd)?;
    Ok((
        ClassDecl {
            head,
            fields,
            init,
            methods,
        },
        rest,
    ))
}

/// A type of an interface.
fn type_decl<'a>(reader: Reader, room: u32, tokens: &'a [Lexeme]) -> Step<'a, TypeDecl>
    requires { room < 999 }
    ensures { Gives (λ x. type_decl_of x.0) (λ x. x.1.now) result (type_decl room reader.most tokens.now) }
{
    let (at, rest) = word(tokens, Reserved::KeyType)?;
    let (name, rest) = name(rest)?;
    let (params, rest) = params(reader, rest)?;
    let (supertypes, rest) = supertypes(reader, room, rest)?;
    let (_, rest) = symbol(rest, Sym::Semicolon)?;
    let (methods, rest) = ended_sigs(reader, room, rest)?;
    let (_, rest) = word(rest, Reserved::KeyEnd)?;
    Ok((
        TypeDecl {
            at,
            name,
            params,
            supertypes,
            methods,
        },
        rest,
    ))
}

/// The type of an exception's argument, or none.
fn argument<'a>(reader: Reader, room: u32, tokens: &'a [Lexeme]) -> Step<'a, Option<TypeTree>>
    requires { room < 999 }
    ensures { Gives (λ x. option_of type_of x.0) (λ x. x.1.now) result (argument room reader.most tokens.now) }
{
    if !at_symbol(tokens, Sym::OpenParen) {
        return Ok((None, tokens));
    }
    let (found, rest) = in_parens(reader, room, tokens)?;
    Ok((Some(found), rest))
}

/// An exception.
fn exception<'a>(reader: Reader, room: u32, tokens: &'a [Lexeme]) -> Step<'a, ExceptionDecl>
    requires { room < 999 }
    ensures { Gives (λ x. exception_of x.0) (λ x. x.1.now) result (exception room reader.most tokens.now) }
{
    let (at, rest) = word(tokens, Reserved::KeyException)?;
    let (name, rest) = name(rest)?;
    let (argument, rest) = argument(reader, room, rest)?;
    let (_, rest) = symbol(rest, Sym::Semicolon)?;
    Ok((ExceptionDecl { at, name, argument }, rest))
}

/// An item of an interface.
pub fn interface_item<'a>(
    reader: Reader,
    room: u32,
    tokens: &'a [Lexeme],
) -> Step<'a, InterfaceItem>
    requires { room < 999 }
    ensures { Gives (λ x. interface_item_of x.0) (λ x. x.1.now) result (interface_item room reader.most tokens.now) }
{
    if at_word(tokens, Reserved::KeyException) {
        let (found, rest) = exception(reader, room, tokens)?;
        return Ok((InterfaceItem::Exception(found), rest));
    }
    if at_word(tokens, Reserved::KeyType) {
        let (found, rest) = type_decl(reader, room, tokens)?;
        return Ok((InterfaceItem::Type(found), rest));
    }
    if at_word(tokens, Reserved::KeyClass) {
        let (found, rest) = interface_class(reader, room, tokens)?;
        return Ok((InterfaceItem::Class(found), rest));
    }
    let (found, rest) = head(reader, room, tokens)?;
    let (_, rest) = symbol(rest, Sym::Semicolon)?;
    Ok((InterfaceItem::Routine(found), rest))
}

/// An interface.
pub fn interface_tree<'a>(reader: Reader, room: u32, tokens: &'a [Lexeme]) -> Step<'a, Interface>
    requires { room < 999 }
    ensures { Gives (λ x. interface_of x.0) (λ x. x.1.now) result (interface room reader.most tokens.now) }
{
    let (at, rest) = word(tokens, Reserved::KeyInterface)?;
    let (name, rest) = name(rest)?;
    let (uses, rest) = uses(reader, rest)?;
    let (_, rest) = symbol(rest, Sym::Semicolon)?;
    let (items, rest) = interface_items(reader, room, rest)?;
    let (_, rest) = word(rest, Reserved::KeyEnd)?;
    Ok((
        Interface {
            at,
            name,
            uses,
            items,
        },
        rest,
    ))
}

/// A routine or an iterator.
fn routine<'a>(reader: Reader, room: u32, tokens: &'a [Lexeme]) -> Step<'a, Routine>
    requires { room < 999 }
    ensures { Gives (λ x. routine_of x.0) (λ x. x.1.now) result (routine room reader.most tokens.now) }
{
    let (head, rest) = head(reader, room, tokens)?;
    let (body, rest) = body_tree(reader, room, rest)?;
    let (_, rest) = word(rest, Reserved::KeyEnd)?;
    Ok((Routine { head, body }, rest))
}

/// An item of a module.
pub fn module_item<'a>(reader: Reader, room: u32, tokens: &'a [Lexeme]) -> Step<'a, ModuleItem>
    requires { room < 999 }
    ensures { Gives (λ x. module_item_of x.0) (λ x. x.1.now) result (module_item room reader.most tokens.now) }
{
    if at_word(tokens, Reserved::KeyClass) {
        let (found, rest) = class(reader, room, tokens)?;
        return Ok((ModuleItem::Class(found), rest));
    }
    let (found, rest) = routine(reader, room, tokens)?;
    Ok((ModuleItem::Routine(found), rest))
}

/// The name after `implements`, or none.
fn implements<'a>(reader: Reader, tokens: &'a [Lexeme]) -> Step<'a, Option<Ident>>
    ensures { Gives (λ x. x.0) (λ x. x.1.now) result (implements 0 reader.most tokens.now) }
{
    if !at_word(tokens, Reserved::KeyImplements) {
        return Ok((None, tokens));
    }
    let (_, rest) = word(tokens, Reserved::KeyImplements)?;
    let (found, rest) = name(rest)?;
    Ok((Some(found), rest))
}

/// A module.
pub fn module_tree<'a>(reader: Reader, room: u32, tokens: &'a [Lexeme]) -> Step<'a, Module>
    requires { room < 999 }
    ensures { Gives (λ x. module_of x.0) (λ x. x.1.now) result (whole_module room reader.most tokens.now) }
{
    let (at, rest) = word(tokens, Reserved::KeyModule)?;
    let (name, rest) = name(rest)?;
    let (implements, rest) = implements(reader, rest)?;
    let (uses, rest) = uses(reader, rest)?;
    let (_, rest) = symbol(rest, Sym::Semicolon)?;
    let (items, rest) = module_items(reader, room, rest)?;
    let (_, rest) = word(rest, Reserved::KeyEnd)?;
    Ok((
        Module {
            at,
            name,
            implements,
            uses,
            items,
        },
        rest,
    ))
}
