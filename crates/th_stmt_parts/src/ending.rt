//! Bodies whose end is never reached. docs/LANGUAGE.md, "Rules of statements", states which.
ghost use Rattle.std.specs.Prelude.{◌≡◌};
ghost use Rattle.th_tree.specs.View.{body_of, else_of, stmt_of, whens_of};
ghost use Rattle.th_type.specs.Signatures.{sig_of};
ghost use Rattle.th_stmt_rules.specs.Ending.{body_ends, else_ends, stmt_ends, whens_end};
ghost use Rattle.th_stmt_rules.specs.Units.{ends_lawfully};

use crate::exception::is_there;
use crate::result::result_of;
use th_tree::{Body, ElseTree, Stmt, WhenList};
use th_type::Sig;

/// Whether the statement ends a body.
#[cycle(ending)]
fn stmt_ends(tree: &Stmt) -> bool
    ensures { result ≡ stmt_ends (stmt_of tree.now) }
{
    match tree {
        Stmt::Return(_) | Stmt::ReturnValue(_, _) | Stmt::Raise(_, _) | Stmt::RaiseValue(_, _, _) =>
            true,
        Stmt::If(_, _, body, rest) => body_ends(body) && else_ends(rest),
        Stmt::Begin(_, body, whens) => body_ends(body) && whens_end(whens),
        Stmt::Var(_, _, _)
        | Stmt::Assign(_, _, _)
        | Stmt::Plain(_, _)
        | Stmt::While(_, _, _)
        | Stmt::For(_, _, _, _)
        | Stmt::Break(_)
        | Stmt::Yield(_, _)
        | Stmt::PutByte(_, _)
        | Stmt::PutInt(_, _)
        | Stmt::PutString(_, _) => false,
    }
}

/// Whether the end of the body is never reached.
#[cycle(ending)]
pub fn body_ends(tree: &Body) -> bool
    ensures { result ≡ body_ends (body_of tree.now) }
{
    let mut rest = tree;
    while let Body::MoreStmt(first, others) = rest {
        match &**others {
            Body::NoStmt => return stmt_ends(first),
            Body::MoreStmt(_, _) => rest = others,
        }
    }
    false
}

/// Whether there is an `else`, and all bodies end.
#[cycle(ending)]
fn else_ends(tree: &ElseTree) -> bool
    ensures { result ≡ else_ends (else_of tree.now) }
{
    let mut rest = tree;
    loop {
        match rest {
            ElseTree::NoElse => return false,
            ElseTree::Else(body) => return body_ends(body),
            ElseTree::Elseif(_, _, body, others) => {
                if !body_ends(body) {
                    return false;
                }
                rest = others;
            }
        }
    }
}

/// Whether the bodies of all handlers end.
#[cycle(ending)]
fn whens_end(tree: &WhenList) -> bool
    ensures { result ≡ whens_end (whens_of tree.now) }
{
    let mut rest = tree;
    while let WhenList::MoreWhen(_, _, _, body, others) = rest {
        if !body_ends(body) {
            return false;
        }
        rest = others;
    }
    true
}

/// Whether the body ends, where a unit of the signature returns a value.
pub fn ends_lawfully(sig: &Sig, tree: &Body) -> bool
    ensures { result ≡ ends_lawfully (sig_of sig.now) (body_of tree.now) }
{
    !is_there(&result_of(sig)) || body_ends(tree)
}
