//! Where expressions stand.
ghost use Rattle.std.specs.Prelude.{◌≡◌};
ghost use Rattle.th_tree.specs.View.{expr_of};
ghost use Rattle.th_type.specs.Failures.{place};
ghost use Rattle.th_rules.specs.Failing.{start};

use th_scope::Env;
use th_tree::Expr;
use th_type::Place;

/// The byte of the text.
pub fn place_at(env: &Env<'_>, at: u32) -> Place
    ensures { result ≡ place env.now.text at }
{
    Place { text: env.text, at }
}

/// The byte where an expression starts.
pub fn start(tree: &Expr) -> u32
    ensures { result ≡ start (expr_of tree.now) }
{
    match tree {
        Expr::Number(at, _) => *at,
        Expr::Text(at, _) => *at,
        Expr::True(at) => *at,
        Expr::False(at) => *at,
        Expr::PartSelf(at) => *at,
        Expr::Super(at, _, _) => *at,
        Expr::Item(at, _, _) => *at,
        Expr::Call(at, _, _, _) => *at,
        Expr::New(at, _, _) => *at,
        Expr::NewArray(at, _, _, _) => *at,
        Expr::GetByte(at) => *at,
        Expr::Field(at, _, _) => *at,
        Expr::Method(at, _, _, _) => *at,
        Expr::Length(at, _) => *at,
        Expr::Element(at, _, _) => *at,
        Expr::Not(at, _) => *at,
        Expr::Negative(at, _) => *at,
        Expr::Binary(at, _, _, _) => *at,
    }
}
