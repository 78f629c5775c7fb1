//! What may be assigned to. docs/LANGUAGE.md, "Rules of statements", states the rule.
ghost use Rattle.std.specs.Prelude.{◌≡◌};
ghost use Rattle.th_tree.specs.View.{expr_of, types_of};
ghost use Rattle.th_meaning.specs.View.{expr_of as core_of};
ghost use Rattle.th_rules.specs.Typing.{typed};
ghost use Rattle.th_scope.specs.View.{context_of, locals_of, meant_of};
ghost use Rattle.th_expr.specs.View.{typed_opt};
ghost use Rattle.th_stmt_rules.specs.Bodies.{element_target, is_element, is_local, is_target};

use th_expr::{Typed, is_self};
use th_meaning::CoreExpr;
use th_scope::{Env, LocalList, Meant, meaning};
use th_tree::{Expr, TypeList};

/// Whether the name means a local, and no braces follow.
fn is_local(meant: &Meant<'_>, types: &TypeList) -> bool
    ensures { result ≡ is_local (meant_of meant.now) (types_of types.now) }
{
    match meant {
        Meant::Nothing => false,
        Meant::Local(_) => match types {
            TypeList::NoType => true,
            TypeList::MoreType(_, _) => false,
        },
        Meant::Param(_) => false,
        Meant::Item(_) => false,
    }
}

/// Whether the checked expression is an element of an array.
fn is_element_of(core: &CoreExpr) -> bool
    ensures { result ≡ is_element (core_of core.now) }
{
    match core {
        CoreExpr::Element(_, _) => true,
        CoreExpr::Number(_)
        | CoreExpr::Truth(_)
        | CoreExpr::Literal(_)
        | CoreExpr::PartSelf
        | CoreExpr::Negative(_)
        | CoreExpr::Arith(_, _, _)
        | CoreExpr::Compare(_, _, _)
        | CoreExpr::Same(_, _)
        | CoreExpr::Not(_)
        | CoreExpr::And(_, _)
        | CoreExpr::Or(_, _)
        | CoreExpr::Join(_, _)
        | CoreExpr::Letter(_, _)
        | CoreExpr::Extent(_)
        | CoreExpr::Length(_)
        | CoreExpr::Cast(_, _)
        | CoreExpr::Call(_)
        | CoreExpr::New(_, _, _, _)
        | CoreExpr::NewArray(_, _, _)
        | CoreExpr::GetByte
        | CoreExpr::Local(_)
        | CoreExpr::Field(_, _) => false,
    }
}

/// Whether the expression is an element of an array, or has no type.
fn is_element(x: &Option<Typed>) -> bool
    ensures { result ≡ element_target (typed_opt x.now) }
{
    match x {
        None => true,
        Some(x) => is_element_of(&x.core),
    }
}

/// Whether the expression, of which `x` is what was found, may be assigned to.
pub fn is_target(tree: &Expr, x: &Option<Typed>, env: &Env<'_>, locals: &LocalList) -> bool
    requires { typed_opt x.now ≡ typed (context_of env.now) (locals_of locals.now) (expr_of tree.now) }
    ensures { result ≡ is_target (context_of env.now) (locals_of locals.now) (expr_of tree.now) }
{
    match tree {
        Expr::Item(_, name, types) => is_local(&meaning(&*env, &*locals, name), types),
        Expr::Field(_, of, _) => is_self(of),
        Expr::Element(_, _, _) => is_element(x),
        Expr::Number(_, _)
        | Expr::Text(_, _)
        | Expr::True(_)
        | Expr::False(_)
        | Expr::PartSelf(_)
        | Expr::Super(_, _, _)
        | Expr::Call(_, _, _, _)
        | Expr::New(_, _, _)
        | Expr::NewArray(_, _, _, _)
        | Expr::GetByte(_)
        | Expr::Method(_, _, _, _)
        | Expr::Length(_, _)
        | Expr::Not(_, _)
        | Expr::Negative(_, _)
        | Expr::Binary(_, _, _, _) => false,
    }
}
