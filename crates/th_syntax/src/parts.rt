//! Expressions of their parts.
ghost use Rattle.std.specs.Prelude.{◌≡◌, ◌<◌, ◌≤◌, ◌+◌, suc, max, IfOk, MatchResult};
ghost use Rattle.th_tree.specs.Trees.{more_exprs, not_expr, negative_expr, element_expr, length_expr, field_expr, method_expr, super_expr, new_expr, new_array_expr, item_expr, call_expr};
ghost use Rattle.th_tree.specs.View.{expr_of as tree_of, exprs_of, type_of, types_of, named_of};
ghost use Rattle.th_tree.specs.Grammar.{found, no_founds, more_founds, joined};
ghost use Rattle.th_syntax.specs.declared.step.Stop.TheVariants.{Memory};
ghost use Rattle.th_syntax.specs.Read.{Got, seq, ret, one, after};
ghost use Rattle.th_tree.specs.declared.lexeme.Mark.TheVariants.{Word, Symbol};
ghost use Rattle.th_tree.specs.declared.tokens.Reserved.TheVariants.{KeyLength};
ghost use Rattle.th_tree.specs.declared.tokens.Sym.TheVariants.{CloseParen, CloseSquare};
ghost use Rattle.th_syntax.specs.Parse.{read_form, get_byte_of};
ghost use Rattle.th_syntax.specs.Gives.{Gives};
ghost use Rattle.th_syntax.specs.Founds.{read_of, list_of, founds_onto};

use crate::exprs::{ReadExpr, ReadExprs};
use crate::step::{Step, Stop, symbol, word};
use crate::types::{ReadNamed, ReadType, ReadTypes, larger};
use std::alloc::Global;
use th_tree::{BinaryOp, Expr, ExprList, Ident, Lexeme, RefTree, Reserved, Sym, TypeList};

/// The expression in a box of its own.
pub fn boxed<'a>(alloc: Global, tree: Expr) -> Result<Box<Expr>, Stop<'a>>
    ensures { MatchResult result (λ b. tree_of b.value ≡ tree_of tree) (λ e. e ≡ Memory) }
{
    match Box::new(alloc, tree) {
        Ok(b) => Ok(b),
        Err(_) => Err(Stop::Memory),
    }
}

/// The expressions in a box of their own.
pub fn boxed_list<'a>(alloc: Global, trees: ExprList) -> Result<Box<ExprList>, Stop<'a>>
    ensures { MatchResult result (λ b. exprs_of b.value ≡ exprs_of trees) (λ e. e ≡ Memory) }
{
    match Box::new(alloc, trees) {
        Ok(b) => Ok(b),
        Err(_) => Err(Stop::Memory),
    }
}

/// The types in a box of their own.
pub fn boxed_types<'a>(alloc: Global, trees: TypeList) -> Result<Box<TypeList>, Stop<'a>>
    ensures { MatchResult result (λ b. types_of b.value ≡ types_of trees) (λ e. e ≡ Memory) }
{
    match Box::new(alloc, trees) {
        Ok(b) => Ok(b),
        Err(_) => Err(Stop::Memory),
    }
}

/// The expressions with one more before them.
pub fn more_first<'a>(alloc: Global, tree: Expr, trees: ExprList) -> Result<ExprList, Stop<'a>>
    ensures { MatchResult result (λ l. exprs_of l ≡ more_exprs (tree_of tree) (exprs_of trees)) (λ e. e ≡ Memory) }
{
    let rest = boxed_list(alloc, trees)?;
    Ok(ExprList::MoreExpr(tree, rest))
}

/// Two operands with an operator between them.
pub fn binary<'a>(
    alloc: Global,
    op: BinaryOp,
    left: ReadExpr,
    right: ReadExpr,
    rest: &'a [Lexeme],
) -> Step<'a, ReadExpr>
    requires { (left.height < 1000) × (right.height < 1000) }
    ensures gives { Gives (λ x. read_of x.0) (λ x. x.1.now) result (Got (joined op (read_of left) (read_of right)) rest.now) }
    ensures height { IfOk result (λ x. x.0.height ≡ suc (max left.height right.height)) }
{
    let height = 1 + larger(left.height, right.height);
    let a = boxed(alloc, left.tree)?;
    let b = boxed(alloc, right.tree)?;
    let tree = Expr::Binary(left.start, op, a, b);
    Ok((
        ReadExpr {
            tree,
            height,
            start: left.start,
        },
        rest,
    ))
}

/// `not` at `at` before an operand.
pub fn negated<'a>(alloc: Global, at: u32, of: ReadExpr, rest: &'a [Lexeme]) -> Step<'a, ReadExpr>
    requires { of.height < 1000 }
    ensures gives { Gives (λ x. read_of x.0) (λ x. x.1.now) result (Got (found (not_expr at (tree_of of.tree)) (suc of.height) at) rest.now) }
    ensures height { IfOk result (λ x. x.0.height ≡ suc of.height) }
{
    let tree = Expr::Not(at, boxed(alloc, of.tree)?);
    Ok((
        ReadExpr {
            tree,
            height: of.height + 1,
            start: at,
        },
        rest,
    ))
}

/// `-` at `at` before an operand.
pub fn opposite<'a>(alloc: Global, at: u32, of: ReadExpr, rest: &'a [Lexeme]) -> Step<'a, ReadExpr>
    requires { of.height < 1000 }
    ensures gives { Gives (λ x. read_of x.0) (λ x. x.1.now) result (Got (found (negative_expr at (tree_of of.tree)) (suc of.height) at) rest.now) }
    ensures height { IfOk result (λ x. x.0.height ≡ suc of.height) }
{
    let tree = Expr::Negative(at, boxed(alloc, of.tree)?);
    Ok((
        ReadExpr {
            tree,
            height: of.height + 1,
            start: at,
        },
        rest,
    ))
}

/// The `)` after an expression whose `(` is at `at`.
pub fn closed<'a>(at: u32, of: ReadExpr, tokens: &'a [Lexeme]) -> Step<'a, ReadExpr>
    requires { of.height < 1000 }
    ensures gives { Gives (λ x. read_of x.0) (λ x. x.1.now) result (after (Symbol CloseParen) (ret (found (tree_of of.tree) (suc of.height) at)) 0 tokens.now) }
    ensures height { IfOk result (λ x. x.0.height ≡ suc of.height) }
{
    let (_, rest) = symbol(tokens, Sym::CloseParen)?;
    Ok((
        ReadExpr {
            tree: of.tree,
            height: of.height + 1,
            start: at,
        },
        rest,
    ))
}

/// The `]` after the place of an element of `left`.
pub fn element<'a>(
    alloc: Global,
    left: ReadExpr,
    place: ReadExpr,
    tokens: &'a [Lexeme],
) -> Step<'a, ReadExpr>
    requires { (left.height < 1000) × (place.height < 1000) }
    ensures gives { Gives (λ x. read_of x.0) (λ x. x.1.now) result (seq (after (Symbol CloseSquare) (ret (read_of place))) (λ b. ret (found (element_expr left.start (tree_of left.tree) b.tree) (suc (max left.height b.height)) left.start)) 0 tokens.now) }
    ensures height { IfOk result (λ x. x.0.height ≡ suc (max left.height place.height)) }
{
    let (_, rest) = symbol(tokens, Sym::CloseSquare)?;
    let height = 1 + larger(left.height, place.height);
    let of = boxed(alloc, left.tree)?;
    let tree = Expr::Element(left.start, of, boxed(alloc, place.tree)?);
    Ok((
        ReadExpr {
            tree,
            height,
            start: left.start,
        },
        rest,
    ))
}

/// `length` after `left` and a `.`.
pub fn length_of<'a>(alloc: Global, left: ReadExpr, tokens: &'a [Lexeme]) -> Step<'a, ReadExpr>
    requires { left.height < 1000 }
    ensures gives { Gives (λ x. read_of x.0) (λ x. x.1.now) result (after (Word KeyLength) (ret (found (length_expr left.start (tree_of left.tree)) (suc left.height) left.start)) 0 tokens.now) }
    ensures height { IfOk result (λ x. x.0.height ≡ suc left.height) }
{
    let (_, rest) = word(tokens, Reserved::KeyLength)?;
    let tree = Expr::Length(left.start, boxed(alloc, left.tree)?);
    Ok((
        ReadExpr {
            tree,
            height: left.height + 1,
            start: left.start,
        },
        rest,
    ))
}

/// A field of `left`.
pub fn field<'a>(
    alloc: Global,
    left: ReadExpr,
    field: Ident,
    rest: &'a [Lexeme],
) -> Step<'a, ReadExpr>
    requires { left.height < 1000 }
    ensures gives { Gives (λ x. read_of x.0) (λ x. x.1.now) result (Got (found (field_expr left.start (tree_of left.tree) field) (suc left.height) left.start) rest.now) }
    ensures height { IfOk result (λ x. x.0.height ≡ suc left.height) }
{
    let tree = Expr::Field(left.start, boxed(alloc, left.tree)?, field);
    Ok((
        ReadExpr {
            tree,
            height: left.height + 1,
            start: left.start,
        },
        rest,
    ))
}

/// A call of a method of `left`.
pub fn method_call<'a>(
    alloc: Global,
    left: ReadExpr,
    method: Ident,
    args: ReadExprs,
    rest: &'a [Lexeme],
) -> Step<'a, ReadExpr>
    requires { (left.height < 1000) × (args.height < 1000) }
    ensures gives { Gives (λ x. read_of x.0) (λ x. x.1.now) result (Got (found (method_expr left.start (tree_of left.tree) method (exprs_of args.trees)) (suc (max left.height args.height)) left.start) rest.now) }
    ensures height { IfOk result (λ x. x.0.height ≡ suc (max left.height args.height)) }
{
    let height = 1 + larger(left.height, args.height);
    let of = boxed(alloc, left.tree)?;
    let tree = Expr::Method(left.start, of, method, boxed_list(alloc, args.trees)?);
    Ok((
        ReadExpr {
            tree,
            height,
            start: left.start,
        },
        rest,
    ))
}

/// A call of the class above, with `super` at `at`.
pub fn super_method<'a>(
    alloc: Global,
    at: u32,
    method: Ident,
    args: ReadExprs,
    rest: &'a [Lexeme],
) -> Step<'a, ReadExpr>
    requires { args.height < 1000 }
    ensures gives { Gives (λ x. read_of x.0) (λ x. x.1.now) result (Got (found (super_expr at method (exprs_of args.trees)) (suc args.height) at) rest.now) }
    ensures height { IfOk result (λ x. x.0.height ≡ suc args.height) }
{
    let tree = Expr::Super(at, method, boxed_list(alloc, args.trees)?);
    Ok((
        ReadExpr {
            tree,
            height: args.height + 1,
            start: at,
        },
        rest,
    ))
}

/// A new object of a class, with `new` at `at`.
pub fn new_object<'a>(
    alloc: Global,
    at: u32,
    class: ReadNamed,
    args: ReadExprs,
    rest: &'a [Lexeme],
) -> Step<'a, ReadExpr>
    requires { (class.height < 1000) × (args.height < 1000) }
    ensures gives { Gives (λ x. read_of x.0) (λ x. x.1.now) result (Got (found (new_expr at (named_of class.tree) (exprs_of args.trees)) (suc (max (suc class.height) args.height)) at) rest.now) }
    ensures height { IfOk result (λ x. x.0.height ≡ suc (max (suc class.height) args.height)) }
{
    let height = 1 + larger(class.height + 1, args.height);
    let tree = Expr::New(at, class.tree, boxed_list(alloc, args.trees)?);
    Ok((
        ReadExpr {
            tree,
            height,
            start: at,
        },
        rest,
    ))
}

/// The `)` after the values of a new array, with `new` at `at`.
pub fn array_value<'a>(
    alloc: Global,
    at: u32,
    of: ReadType,
    length: ReadExpr,
    fill: ReadExpr,
    tokens: &'a [Lexeme],
) -> Step<'a, ReadExpr>
    requires { (of.height < 1000) × (length.height < 1000) × (fill.height < 1000) }
    ensures gives { Gives (λ x. read_of x.0) (λ x. x.1.now) result (after (Symbol CloseParen) (ret (found (new_array_expr at (type_of of.tree) (tree_of length.tree) (tree_of fill.tree)) (suc (max of.height (max length.height fill.height))) at)) 0 tokens.now) }
    ensures height { IfOk result (λ x. x.0.height ≡ suc (max of.height (max length.height fill.height))) }
{
    let (_, rest) = symbol(tokens, Sym::CloseParen)?;
    let height = 1 + larger(of.height, larger(length.height, fill.height));
    let length = boxed(alloc, length.tree)?;
    let tree = Expr::NewArray(at, of.tree, length, boxed(alloc, fill.tree)?);
    Ok((
        ReadExpr {
            tree,
            height,
            start: at,
        },
        rest,
    ))
}

/// A reference with types, without arguments.
pub fn plain_item<'a>(
    alloc: Global,
    item: RefTree,
    types: ReadTypes,
    rest: &'a [Lexeme],
) -> Step<'a, ReadExpr>
    requires { types.height < 1000 }
    ensures gives { Gives (λ x. read_of x.0) (λ x. x.1.now) result (Got (found (item_expr item.first.at item (types_of types.trees)) (suc types.height) item.first.at) rest.now) }
    ensures height { IfOk result (λ x. x.0.height ≡ suc types.height) }
{
    let start = item.first.at;
    let tree = Expr::Item(start, item, boxed_types(alloc, types.trees)?);
    Ok((
        ReadExpr {
            tree,
            height: types.height + 1,
            start,
        },
        rest,
    ))
}

/// A call.
pub fn call<'a>(
    alloc: Global,
    item: RefTree,
    types: ReadTypes,
    args: ReadExprs,
    rest: &'a [Lexeme],
) -> Step<'a, ReadExpr>
    requires { (types.height < 1000) × (args.height < 1000) }
    ensures gives { Gives (λ x. read_of x.0) (λ x. x.1.now) result (Got (found (call_expr item.first.at item (types_of types.trees) (exprs_of args.trees)) (suc (max types.height args.height)) item.first.at) rest.now) }
    ensures height { IfOk result (λ x. x.0.height ≡ suc (max types.height args.height)) }
{
    let start = item.first.at;
    let height = 1 + larger(types.height, args.height);
    let trees = boxed_types(alloc, types.trees)?;
    let tree = Expr::Call(start, item, trees, boxed_list(alloc, args.trees)?);
    Ok((
        ReadExpr {
            tree,
            height,
            start,
        },
        rest,
    ))
}

/// The expressions, which were read back to front, with one more before them.
pub fn with_one<'a>(alloc: Global, one: ReadExpr, back: ReadExprs) -> Result<ReadExprs, Stop<'a>>
    ensures list { MatchResult result (λ l. list_of l ≡ more_founds (read_of one) (list_of back)) (λ e. e ≡ Memory) }
    ensures height { IfOk result (λ l. l.height ≡ max one.height back.height) }
{
    Ok(ReadExprs {
        height: larger(one.height, back.height),
        trees: more_first(alloc, one.tree, back.trees)?,
    })
}

/// No expressions.
pub fn no_exprs() -> ReadExprs
    ensures list { list_of result ≡ no_founds }
    ensures height { result.height ≡ 0 }
{
    ReadExprs {
        trees: ExprList::NoExpr,
        height: 0,
    }
}

/// The expressions the other way round.
pub fn turned(back: ReadExprs) -> ReadExprs
    ensures list { list_of result ≡ founds_onto (list_of back) no_founds }
    ensures height { result.height ≡ back.height }
{
    ReadExprs {
        trees: back.trees.turned(ExprList::NoExpr),
        height: back.height,
    }
}

/// The `)` after no arguments.
pub fn no_args(tokens: &[Lexeme]) -> Step<'_, ReadExprs>
    ensures gives { Gives (λ x. list_of x.0) (λ x. x.1.now) result (seq (one (Symbol CloseParen)) (λ p. ret no_founds) 0 tokens.now) }
    ensures height { IfOk result (λ x. x.0.height ≡ 0) }
{
    let (_, rest) = symbol(tokens, Sym::CloseParen)?;
    Ok((no_exprs(), rest))
}

/// The `)` after arguments.
pub fn args_end<'a>(args: ReadExprs, tokens: &'a [Lexeme]) -> Step<'a, ReadExprs>
    ensures gives { Gives (λ x. list_of x.0) (λ x. x.1.now) result (after (Symbol CloseParen) (ret (list_of args)) 0 tokens.now) }
    ensures height { IfOk result (λ x. x.0.height ≡ args.height) }
{
    let (_, rest) = symbol(tokens, Sym::CloseParen)?;
    Ok((args, rest))
}

/// An expression without parts.
pub fn leaf(tree: Expr, start: u32) -> ReadExpr
    ensures { read_of result ≡ found (tree_of tree) 1 start }
{
    ReadExpr {
        tree,
        height: 1,
        start,
    }
}

/// `get_byte()`
pub fn get_byte(tokens: &[Lexeme]) -> Step<'_, ReadExpr>
    ensures gives { Gives (λ x. read_of x.0) (λ x. x.1.now) result (get_byte_of 0 (read_form 0) 0 tokens.now) }
    ensures low { IfOk result (λ x. x.0.height ≤ 1) }
{
    let (at, rest) = word(tokens, Reserved::KeyGetByte)?;
    let (_, rest) = symbol(rest, Sym::OpenParen)?;
    let (_, rest) = symbol(rest, Sym::CloseParen)?;
    Ok((leaf(Expr::GetByte(at), at), rest))
}
