//! Exceptions after `raise` and `when`. docs/LANGUAGE.md, "Rules of statements", states their rules.
ghost use Rattle.std.specs.Prelude.{◌≡◌, IfOk, None, codes, is_some, option_map};
ghost use Rattle.th_type.specs.Failures.{lowest};
ghost use Rattle.th_type.specs.Types.{ty_of};
ghost use Rattle.th_scope.specs.View.{context_of, item_head_of, locals_of, meant_of};
ghost use Rattle.th_stmt_rules.specs.Exceptions.{argument_of, exception, exception_fails, exception_of, has_argument, is_bare, item_exception, key_name, meant_exception};
ghost use Rattle.th_stmt_parts.specs.View.{exception_opt, exception_view};

use crate::place::place_at;
use std::alloc::{AllocError, Global};
use th_scope::{Env, Head, LocalList, Meant, meaning, spelled};
use th_stmt_rules::Key;
use th_tree::{ExcTree, Name};
use th_type::{Failure, Ty, demand};

/// An exception, with the type of its argument where it has one.
#[derive(Clone, Copy)]
pub struct Exception<'a> {
    pub key: Key,
    pub argument: Option<&'a Ty>,
}

/// The type behind a reference, where there is one.
fn lent(ty: &Option<Ty>) -> Option<&Ty>
    ensures { option_map (λ t. ty_of t.now) result ≡ option_map ty_of ty.now }
{
    match ty {
        None => None,
        Some(ty) => Some(ty),
    }
}

/// The item as an exception, if it is one.
fn item_exception<'a>(full: u32, head: &'a Head) -> Option<Exception<'a>>
    ensures { exception_opt result ≡ item_exception full (item_head_of head.now) }
{
    match head {
        Head::Exception(argument) => Some(Exception {
            key: Key::Declared(full),
            argument: lent(argument),
        }),
        Head::Declared(_) => None,
        Head::Class(_) => None,
        Head::Routine(_) => None,
    }
}

/// The exception that a name means, if it means one.
fn meant_exception<'a>(meant: Meant<'a>) -> Option<Exception<'a>>
    ensures { exception_opt result ≡ meant_exception (meant_of meant.entry) }
{
    match meant {
        Meant::Nothing => None,
        Meant::Local(_) => None,
        Meant::Param(_) => None,
        Meant::Item(item) => item_exception(item.full, &item.head),
    }
}

/// Whether there is an exception.
fn is_known(x: &Option<Exception<'_>>) -> bool
    ensures { result ≡ is_some (exception_opt x.now) }
{
    match x {
        None => false,
        Some(_) => true,
    }
}

/// A predeclared exception, which has no argument.
fn predeclared<'a>(key: Key) -> Exception<'a>
    ensures { exception_view result ≡ exception key None }
{
    Exception {
        key,
        argument: None,
    }
}

/// The exception after `raise` or `when`, if there is one.
pub fn exception_of<'a>(
    tree: &ExcTree,
    env: &Env<'a>,
    locals: &'a LocalList,
) -> Option<Exception<'a>>
    ensures { exception_opt result ≡ exception_of (context_of env.now) (locals_of locals.now) tree.now }
{
    match tree {
        ExcTree::Declared(name) => meant_exception(meaning(env, locals, name)),
        ExcTree::Overflow(_) => Some(predeclared(Key::Overflow)),
        ExcTree::ZeroDivide(_) => Some(predeclared(Key::ZeroDivide)),
        ExcTree::Bounds(_) => Some(predeclared(Key::Bounds)),
        ExcTree::EndOfInput(_) => Some(predeclared(Key::EndOfInput)),
    }
}

/// Judges that a name after `raise` or `when` is that of an exception.
fn judge_exception(tree: &ExcTree, env: &Env<'_>, locals: &LocalList, least: &mut Option<Failure>)
    ensures { least.new ≡ lowest least.old (exception_fails (context_of env.now) (locals_of locals.now) tree.now) }
{
    match tree {
        ExcTree::Declared(name) => {
            let found = meant_exception(meaning(&*env, &*locals, name));
            demand(least, is_known(&found), 4, place_at(env, name.first.at));
        }
        ExcTree::Overflow(_) => {}
        ExcTree::ZeroDivide(_) => {}
        ExcTree::Bounds(_) => {}
        ExcTree::EndOfInput(_) => {}
    }
}

/// The exception after `raise` or `when`, which is judged to be one.
pub fn walk_exception<'a>(
    tree: &ExcTree,
    env: &Env<'a>,
    locals: &'a LocalList,
    least: &mut Option<Failure>,
) -> Option<Exception<'a>>
    ensures found { exception_opt result ≡ exception_of (context_of env.now) (locals_of locals.now) tree.now }
    ensures least { least.new ≡ lowest least.old (exception_fails (context_of env.now) (locals_of locals.now) tree.now) }
{
    judge_exception(tree, env, locals, least);
    exception_of(tree, env, locals)
}

/// Whether there is a type.
pub fn is_there(ty: &Option<&Ty>) -> bool
    ensures { result ≡ is_some (option_map (λ t. ty_of t.now) ty.now) }
{
    match ty {
        None => false,
        Some(_) => true,
    }
}

/// Whether the exception has no argument, where there is an exception.
pub fn is_bare(x: &Option<Exception<'_>>) -> bool
    ensures { result ≡ is_bare (exception_opt x.now) }
{
    match x {
        None => true,
        Some(x) => !is_there(&x.argument),
    }
}

/// Whether the exception has an argument, where there is an exception.
pub fn has_argument(x: &Option<Exception<'_>>) -> bool
    ensures { result ≡ has_argument (exception_opt x.now) }
{
    match x {
        None => true,
        Some(x) => is_there(&x.argument),
    }
}

/// The type of the exception's argument, where there is an exception that has one.
pub fn argument_of<'a>(x: &Option<Exception<'a>>) -> Option<&'a Ty>
    ensures { option_map (λ t. ty_of t.now) result ≡ argument_of (exception_opt x.now) }
{
    match x {
        None => None,
        Some(x) => x.argument,
    }
}

/// The full name of an exception.
pub fn key_name(alloc: Global, env: &Env<'_>, key: Key) -> Result<Name, AllocError>
    ensures { IfOk result (λ n. n ≡ key_name (context_of env.now).names key) }
{
    match key {
        Key::Overflow => named(alloc, b"overflow"),
        Key::ZeroDivide => named(alloc, b"zero_divide"),
        Key::Bounds => named(alloc, b"bounds"),
        Key::EndOfInput => named(alloc, b"end_of_input"),
        Key::Declared(full) => spelled(alloc, env.names, full),
    }
}

/// The name of these bytes.
fn named(alloc: Global, bytes: &[u8]) -> Result<Name, AllocError>
    ensures { IfOk result (λ n. n ≡ bytes.now) }
{
    Ok(Name::of(Vec::from_slice(alloc, bytes)?))
}
