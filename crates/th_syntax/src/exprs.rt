//! Reading expressions.
ghost use Rattle.std.specs.Prelude.{◌≡◌, ◌<◌, ◌≤◌, ◌+◌, nat_lt, IfOk, if◌then◌else◌};
ghost use Rattle.th_tree.specs.Trees.{type_height, types_height};
ghost use Rattle.th_tree.specs.View.{type_of, types_of};
ghost use Rattle.th_tree.specs.Grammar.{operator_of};
ghost use Rattle.th_syntax.specs.Read.{Bad, peek, in_set, has, lookup, one_of_table};
ghost use Rattle.th_syntax.specs.Parse.{read_form, args_of, parens_of, super_of, new_of, array_head, array_values, braces_of, item_of, atom_of, member_of, suffix_first, suffix_of, post_of, operand_of, chain, unary_of, sum_of, comparison, neg_of, form_of};
ghost use Rattle.th_syntax.specs.Gives.{Gives};
ghost use Rattle.th_syntax.specs.Founds.{read_of, list_of, form_named, expr_list};

use crate::parts::{
    args_end, array_value, binary, call, closed, element, field, get_byte, leaf, length_of,
    method_call, negated, new_object, no_args, no_exprs, opposite, plain_item, super_method,
    turned, with_one,
};
use crate::step::{Reader, Step, Stop, at_symbol, at_word, name, reference, symbol, word};
use crate::types::{ReadType, ReadTypes};
use std::alloc::Global;
use th_tree::{BinaryOp, Expr, ExprList, Lexeme, Mark, Reserved, Sym, TypeList};

/// The forms of an expression that are read by themselves.
#[derive(Clone, Copy, Drop)]
pub enum Level {
    Expr,
    Conj,
    Neg,
    Rel,
    Sum,
    Term,
    Unary,
    Post,
}

/// An expression, its height and the byte where it starts.
#[derive(Drop)]
pub struct ReadExpr {
    pub tree: Expr,
    pub height: u32,
    pub start: u32,
}

/// Expressions and the greatest of their heights.
#[derive(Drop)]
pub struct ReadExprs {
    pub trees: ExprList,
    pub height: u32,
}

/// Which operator between operands of the form is next.
fn operator(level: Level, tokens: &[Lexeme]) -> Option<BinaryOp>
    ensures { result ≡ lookup (operator_of (form_named level)) (peek tokens.now) }
{
    match tokens {
        [token, ..] => operator_in(level, token.mark),
        [] => None,
    }
}

fn operator_in(level: Level, mark: Mark) -> Option<BinaryOp>
    ensures { result ≡ operator_of (form_named level) mark }
{
    match level {
        Level::Expr => matches!(mark, Mark::Word(Reserved::KeyOr)).then_some(BinaryOp::Or),
        Level::Conj => matches!(mark, Mark::Word(Reserved::KeyAnd)).then_some(BinaryOp::And),
        Level::Rel => match mark {
            Mark::Symbol(Sym::Equal) => Some(BinaryOp::Equal),
            Mark::Symbol(Sym::NotEqual) => Some(BinaryOp::NotEqual),
            Mark::Symbol(Sym::Same) => Some(BinaryOp::Same),
            Mark::Symbol(Sym::Less) => Some(BinaryOp::Less),
            Mark::Symbol(Sym::LessEqual) => Some(BinaryOp::LessEqual),
            Mark::Symbol(Sym::Greater) => Some(BinaryOp::Greater),
            Mark::Symbol(Sym::GreaterEqual) => Some(BinaryOp::GreaterEqual),
            _ => None,
        },
        Level::Sum => match mark {
            Mark::Symbol(Sym::Plus) => Some(BinaryOp::Plus),
            Mark::Symbol(Sym::Minus) => Some(BinaryOp::Minus),
            Mark::Symbol(Sym::Ampersand) => Some(BinaryOp::Join),
            _ => None,
        },
        Level::Term => match mark {
            Mark::Symbol(Sym::Times) => Some(BinaryOp::Times),
            Mark::Symbol(Sym::Divide) => Some(BinaryOp::Divide),
            Mark::Symbol(Sym::Remainder) => Some(BinaryOp::Remainder),
            _ => None,
        },
        Level::Neg | Level::Unary | Level::Post => None,
    }
}

/// Whether an operator between operands of the form is next.
fn at_operator(level: Level, tokens: &[Lexeme]) -> bool
    ensures { has (lookup (operator_of (form_named level)) (peek tokens.now)) ≡ result }
{
    operator(level, tokens).is_some()
}

/// The operator between operands of the form.
fn take_operator(level: Level, tokens: &[Lexeme]) -> Step<'_, BinaryOp>
    ensures { Gives (λ x. x.0) (λ x. x.1.now) result (one_of_table (operator_of (form_named level)) tokens.now) }
{
    let Some(op) = operator(level, tokens) else {
        return Err(Stop::Wrong(tokens));
    };
    match tokens {
        [_, rest @ ..] => Ok((op, rest)),
        [] => Err(Stop::Wrong(tokens)),
    }
}

/// Whether a `.` or a `[` is next.
fn at_suffix(tokens: &[Lexeme]) -> bool
    ensures { in_set suffix_first (peek tokens.now) ≡ result }
{
    at_symbol(tokens, Sym::Dot) || at_symbol(tokens, Sym::OpenSquare)
}

impl Reader {
    /// The form up to the height `room`.
    #[cycle(exprs)]
    pub fn expr<'a>(self, level: Level, room: u32, tokens: &'a [Lexeme]) -> Step<'a, ReadExpr>
        requires { room < 1000 }
        ensures gives { Gives (λ x. read_of x.0) (λ x. x.1.now) result (read_form room (form_named level) self.most tokens.now) }
        ensures low { IfOk result (λ x. x.0.height ≤ room) }
    {
        if room == 0 {
            return Err(Stop::Wrong(tokens));
        }
        self.form_within(level, room - 1, tokens)
    }

    /// The form up to the height `r + 1`.
    #[cycle(exprs)]
    fn form_within<'a>(self, level: Level, r: u32, tokens: &'a [Lexeme]) -> Step<'a, ReadExpr>
        requires { r < 999 }
        ensures gives { Gives (λ x. read_of x.0) (λ x. x.1.now) result (form_of r (read_form r) (form_named level) self.most tokens.now) }
        ensures low { IfOk result (λ x. x.0.height ≤ r + 1) }
    {
        match level {
            Level::Expr => {
                let (left, rest) = self.negation(r, tokens)?;
                let (left, rest) = self.chained(Level::Conj, Level::Neg, r, left, rest)?;
                self.chained(Level::Expr, Level::Conj, r, left, rest)
            }
            Level::Conj => {
                let (left, rest) = self.negation(r, tokens)?;
                self.chained(Level::Conj, Level::Neg, r, left, rest)
            }
            Level::Neg => self.negation(r, tokens),
            Level::Rel => {
                let (left, rest) = self.sum(r, tokens)?;
                self.comparison(r, left, rest)
            }
            Level::Sum => self.sum(r, tokens),
            Level::Term => {
                let (left, rest) = self.unary(r, tokens)?;
                self.chained(Level::Term, Level::Unary, r, left, rest)
            }
            Level::Unary => self.unary(r, tokens),
            Level::Post => self.postfix(r, tokens),
        }
    }

    /// `not` and an operand, or a comparison.
    #[cycle(exprs)]
    fn negation<'a>(self, r: u32, tokens: &'a [Lexeme]) -> Step<'a, ReadExpr>
        requires { r < 999 }
        ensures gives { Gives (λ x. read_of x.0) (λ x. x.1.now) result (neg_of r (read_form r) self.most tokens.now) }
        ensures low { IfOk result (λ x. x.0.height ≤ r + 1) }
    {
        if !at_word(tokens, Reserved::KeyNot) {
            let (left, rest) = self.sum(r, tokens)?;
            return self.comparison(r, left, rest);
        }
        if r == 0 {
            return Err(Stop::Wrong(tokens));
        }
        let (at, rest) = word(tokens, Reserved::KeyNot)?;
        let (of, rest) = self.expr(Level::Neg, r, rest)?;
        negated(self.alloc, at, of, rest)
    }

    /// A sum.
    #[cycle(exprs)]
    fn sum<'a>(self, r: u32, tokens: &'a [Lexeme]) -> Step<'a, ReadExpr>
        requires { r < 999 }
        ensures gives { Gives (λ x. read_of x.0) (λ x. x.1.now) result (sum_of r (read_form r) self.most tokens.now) }
        ensures low { IfOk result (λ x. x.0.height ≤ r + 1) }
    {
        let (left, rest) = self.unary(r, tokens)?;
        let (left, rest) = self.chained(Level::Term, Level::Unary, r, left, rest)?;
        self.chained(Level::Sum, Level::Term, r, left, rest)
    }

    /// `-` and an operand, or an atom with its suffixes.
    #[cycle(exprs)]
    fn unary<'a>(self, r: u32, tokens: &'a [Lexeme]) -> Step<'a, ReadExpr>
        requires { r < 999 }
        ensures gives { Gives (λ x. read_of x.0) (λ x. x.1.now) result (unary_of r (read_form r) self.most tokens.now) }
        ensures low { IfOk result (λ x. x.0.height ≤ r + 1) }
    {
        if !at_symbol(tokens, Sym::Minus) {
            return self.postfix(r, tokens);
        }
        if r == 0 {
            return Err(Stop::Wrong(tokens));
        }
        let (at, rest) = symbol(tokens, Sym::Minus)?;
        let (of, rest) = self.expr(Level::Unary, r, rest)?;
        opposite(self.alloc, at, of, rest)
    }

    /// Further operands of a chain, after `left`.
    #[cycle(exprs)]
    fn chained<'a>(
        self,
        level: Level,
        next: Level,
        r: u32,
        left: ReadExpr,
        tokens: &'a [Lexeme],
    ) -> Step<'a, ReadExpr>
        requires small { r < 999 }
        requires low { left.height ≤ r + 1 }
        ensures gives { Gives (λ x. read_of x.0) (λ x. x.1.now) result (chain r (read_form r) (form_named level) (form_named next) (read_of left) self.most tokens.now) }
        ensures low { IfOk result (λ x. x.0.height ≤ r + 1) }
    {
        let mut left = left;
        let mut rest = tokens;
        for _ in 0..r + 1 {
            if !at_operator(level, rest) {
                return Ok((left, rest));
            }
            if r < left.height {
                return Err(Stop::Wrong(rest));
            }
            let (longer, after) = self.operand(level, next, r, left, rest)?;
            left = longer;
            rest = after;
        }
        Ok((left, rest))
    }

    /// An operator and an operand, after `left`.
    #[cycle(exprs)]
    fn operand<'a>(
        self,
        level: Level,
        next: Level,
        r: u32,
        left: ReadExpr,
        tokens: &'a [Lexeme],
    ) -> Step<'a, ReadExpr>
        requires small { r < 999 }
        requires low { left.height ≤ r }
        ensures gives { Gives (λ x. read_of x.0) (λ x. x.1.now) result (operand_of r (read_form r) (form_named level) (form_named next) (read_of left) self.most tokens.now) }
        ensures low { IfOk result (λ x. x.0.height ≤ r + 1) }
    {
        let (op, rest) = take_operator(level, tokens)?;
        let (right, rest) = self.expr(next, r, rest)?;
        binary(self.alloc, op, left, right, rest)
    }

    /// A comparison with a sum, or nothing, after `left`.
    #[cycle(exprs)]
    fn comparison<'a>(self, r: u32, left: ReadExpr, tokens: &'a [Lexeme]) -> Step<'a, ReadExpr>
        requires small { r < 999 }
        requires low { left.height ≤ r + 1 }
        ensures gives { Gives (λ x. read_of x.0) (λ x. x.1.now) result (comparison r (read_form r) (read_of left) self.most tokens.now) }
        ensures low { IfOk result (λ x. x.0.height ≤ r + 1) }
    {
        if !at_operator(Level::Rel, tokens) {
            return Ok((left, tokens));
        }
        if r < left.height {
            return Err(Stop::Wrong(tokens));
        }
        self.operand(Level::Rel, Level::Sum, r, left, tokens)
    }

    /// An atom with its suffixes.
    #[cycle(exprs)]
    fn postfix<'a>(self, r: u32, tokens: &'a [Lexeme]) -> Step<'a, ReadExpr>
        requires { r < 999 }
        ensures gives { Gives (λ x. read_of x.0) (λ x. x.1.now) result (post_of r (read_form r) self.most tokens.now) }
        ensures low { IfOk result (λ x. x.0.height ≤ r + 1) }
    {
        let (mut left, mut rest) = self.atom(r, tokens)?;
        for _ in 0..r + 1 {
            if !at_suffix(rest) {
                return Ok((left, rest));
            }
            if r < left.height {
                return Err(Stop::Wrong(rest));
            }
            let (longer, after) = self.suffix(r, left, rest)?;
            left = longer;
            rest = after;
        }
        Ok((left, rest))
    }

    /// A suffix after `left`.
    #[cycle(exprs)]
    fn suffix<'a>(self, r: u32, left: ReadExpr, tokens: &'a [Lexeme]) -> Step<'a, ReadExpr>
        requires small { r < 999 }
        requires low { left.height ≤ r }
        ensures gives { Gives (λ x. read_of x.0) (λ x. x.1.now) result (suffix_of r (read_form r) (read_of left) self.most tokens.now) }
        ensures low { IfOk result (λ x. x.0.height ≤ r + 1) }
    {
        if at_symbol(tokens, Sym::Dot) {
            let (_, rest) = symbol(tokens, Sym::Dot)?;
            return self.member(r, left, rest);
        }
        let (_, rest) = symbol(tokens, Sym::OpenSquare)?;
        let (place, rest) = self.expr(Level::Expr, r, rest)?;
        element(self.alloc, left, place, rest)
    }

    /// What follows the `.` after `left`.
    #[cycle(exprs)]
    fn member<'a>(self, r: u32, left: ReadExpr, tokens: &'a [Lexeme]) -> Step<'a, ReadExpr>
        requires small { r < 999 }
        requires low { left.height ≤ r }
        ensures gives { Gives (λ x. read_of x.0) (λ x. x.1.now) result (member_of r (read_form r) (read_of left) self.most tokens.now) }
        ensures low { IfOk result (λ x. x.0.height ≤ r + 1) }
    {
        if at_word(tokens, Reserved::KeyLength) {
            return length_of(self.alloc, left, tokens);
        }
        let (method, rest) = name(tokens)?;
        if !at_symbol(rest, Sym::OpenParen) {
            return field(self.alloc, left, method, rest);
        }
        let (args, rest) = self.args(r, rest)?;
        method_call(self.alloc, left, method, args, rest)
    }

    /// An atom.
    #[cycle(exprs)]
    fn atom<'a>(self, r: u32, tokens: &'a [Lexeme]) -> Step<'a, ReadExpr>
        requires { r < 999 }
        ensures gives { Gives (λ x. read_of x.0) (λ x. x.1.now) result (atom_of r (read_form r) self.most tokens.now) }
        ensures low { IfOk result (λ x. x.0.height ≤ r + 1) }
    {
        let [token, rest @ ..] = tokens else {
            return Err(Stop::Wrong(tokens));
        };
        let start = token.at;
        match token.mark {
            Mark::Number(number) => Ok((leaf(Expr::Number(start, number), start), rest)),
            Mark::Text(number) => Ok((leaf(Expr::Text(start, number), start), rest)),
            Mark::Word(Reserved::KeyTrue) => Ok((leaf(Expr::True(start), start), rest)),
            Mark::Word(Reserved::KeyFalse) => Ok((leaf(Expr::False(start), start), rest)),
            Mark::Word(Reserved::KeySelf) => Ok((leaf(Expr::PartSelf(start), start), rest)),
            Mark::Symbol(Sym::OpenParen) => self.parens(r, tokens),
            Mark::Word(Reserved::KeySuper) => self.super_call(r, tokens),
            Mark::Word(Reserved::KeyNew) => self.new_value(r, tokens),
            Mark::Word(Reserved::KeyGetByte) => get_byte(tokens),
            Mark::Name(_) => self.item(r, tokens),
            _ => Err(Stop::Wrong(tokens)),
        }
    }

    /// An expression in parentheses, where there is room.
    #[cycle(exprs)]
    fn parens<'a>(self, r: u32, tokens: &'a [Lexeme]) -> Step<'a, ReadExpr>
        requires { r < 999 }
        ensures gives { Gives (λ x. read_of x.0) (λ x. x.1.now) result (if nat_lt 0 r then parens_of r (read_form r) self.most tokens.now else Bad tokens.now) }
        ensures low { IfOk result (λ x. x.0.height ≤ r + 1) }
    {
        if r == 0 {
            return Err(Stop::Wrong(tokens));
        }
        let (at, rest) = symbol(tokens, Sym::OpenParen)?;
        let (of, rest) = self.expr(Level::Expr, r, rest)?;
        closed(at, of, rest)
    }

    /// `super`, `.`, a method and arguments.
    #[cycle(exprs)]
    fn super_call<'a>(self, r: u32, tokens: &'a [Lexeme]) -> Step<'a, ReadExpr>
        requires { r < 999 }
        ensures gives { Gives (λ x. read_of x.0) (λ x. x.1.now) result (super_of r (read_form r) self.most tokens.now) }
        ensures low { IfOk result (λ x. x.0.height ≤ r + 1) }
    {
        let (at, rest) = word(tokens, Reserved::KeySuper)?;
        let (_, rest) = symbol(rest, Sym::Dot)?;
        let (method, rest) = name(rest)?;
        let (args, rest) = self.args(r, rest)?;
        super_method(self.alloc, at, method, args, rest)
    }

    /// `new` and what follows, where there is room.
    #[cycle(exprs)]
    fn new_value<'a>(self, r: u32, tokens: &'a [Lexeme]) -> Step<'a, ReadExpr>
        requires { r < 999 }
        ensures gives { Gives (λ x. read_of x.0) (λ x. x.1.now) result (if nat_lt 0 r then new_of r (read_form r) self.most tokens.now else Bad tokens.now) }
        ensures low { IfOk result (λ x. x.0.height ≤ r + 1) }
    {
        if r == 0 {
            return Err(Stop::Wrong(tokens));
        }
        let (at, rest) = word(tokens, Reserved::KeyNew)?;
        if at_word(rest, Reserved::KeyArray) {
            let (of, rest) = self.array_head(r, rest)?;
            return self.new_array(r, at, of, rest);
        }
        let (class, rest) = self.named(r, rest)?;
        let (args, rest) = self.args(r, rest)?;
        new_object(self.alloc, at, class, args, rest)
    }

    /// `array`, the type of its elements and `(`.
    fn array_head<'a>(self, r: u32, tokens: &'a [Lexeme]) -> Step<'a, ReadType>
        requires { r < 999 }
        ensures gives { Gives (λ x. type_of x.0.tree) (λ x. x.1.now) result (array_head r self.most tokens.now) }
        ensures height { IfOk result (λ x. x.0.height ≡ type_height (type_of x.0.tree)) }
        ensures low { IfOk result (λ x. x.0.height ≤ r) }
    {
        let (_, rest) = word(tokens, Reserved::KeyArray)?;
        let (_, rest) = symbol(rest, Sym::OpenSquare)?;
        let (of, rest) = self.type_tree(r, rest)?;
        let (_, rest) = symbol(rest, Sym::CloseSquare)?;
        let (_, rest) = symbol(rest, Sym::OpenParen)?;
        Ok((of, rest))
    }

    /// The length and the first value of a new array, with `new` at `at`.
    #[cycle(exprs)]
    fn new_array<'a>(
        self,
        r: u32,
        at: u32,
        of: ReadType,
        tokens: &'a [Lexeme],
    ) -> Step<'a, ReadExpr>
        requires small { r < 999 }
        requires low { of.height ≤ r }
        requires height { of.height ≡ type_height (type_of of.tree) }
        ensures gives { Gives (λ x. read_of x.0) (λ x. x.1.now) result (array_values r (read_form r) at (type_of of.tree) self.most tokens.now) }
        ensures low { IfOk result (λ x. x.0.height ≤ r + 1) }
    {
        let (length, rest) = self.expr(Level::Expr, r, tokens)?;
        let (_, rest) = symbol(rest, Sym::Comma)?;
        let (fill, rest) = self.expr(Level::Expr, r, rest)?;
        array_value(self.alloc, at, of, length, fill, rest)
    }

    /// A reference, types in braces and arguments, of which the last two may be missing.
    #[cycle(exprs)]
    fn item<'a>(self, r: u32, tokens: &'a [Lexeme]) -> Step<'a, ReadExpr>
        requires { r < 999 }
        ensures gives { Gives (λ x. read_of x.0) (λ x. x.1.now) result (item_of r (read_form r) self.most tokens.now) }
        ensures low { IfOk result (λ x. x.0.height ≤ r + 1) }
    {
        let (item, rest) = reference(tokens)?;
        let (types, rest) = self.braces(r, rest)?;
        if !at_symbol(rest, Sym::OpenParen) {
            return plain_item(self.alloc, item, types, rest);
        }
        let (args, rest) = self.args(r, rest)?;
        call(self.alloc, item, types, args, rest)
    }

    /// Types in braces, or nothing.
    fn braces<'a>(self, r: u32, tokens: &'a [Lexeme]) -> Step<'a, ReadTypes>
        requires { r < 999 }
        ensures gives { Gives (λ x. types_of x.0.trees) (λ x. x.1.now) result (braces_of r (read_form r) self.most tokens.now) }
        ensures height { IfOk result (λ x. x.0.height ≡ types_height (types_of x.0.trees)) }
        ensures low { IfOk result (λ x. x.0.height ≤ r) }
    {
        if !at_symbol(tokens, Sym::OpenBrace) {
            return Ok((
                ReadTypes {
                    trees: TypeList::NoType,
                    height: 0,
                },
                tokens,
            ));
        }
        if r == 0 {
            return Err(Stop::Wrong(tokens));
        }
        let (_, rest) = symbol(tokens, Sym::OpenBrace)?;
        let (types, rest) = self.types(r, rest)?;
        let (_, rest) = symbol(rest, Sym::CloseBrace)?;
        Ok((types, rest))
    }

    /// Arguments.
    #[cycle(exprs)]
    pub fn args<'a>(self, r: u32, tokens: &'a [Lexeme]) -> Step<'a, ReadExprs>
        requires { r < 999 }
        ensures gives { Gives (λ x. list_of x.0) (λ x. x.1.now) result (args_of r (read_form r) self.most tokens.now) }
        ensures low { IfOk result (λ x. x.0.height ≤ r) }
    {
        let (_, rest) = symbol(tokens, Sym::OpenParen)?;
        if at_symbol(rest, Sym::CloseParen) {
            return no_args(rest);
        }
        if r == 0 {
            return Err(Stop::Wrong(rest));
        }
        let (found, rest) = self.exprs(r, rest)?;
        args_end(found, rest)
    }

    /// Expressions with commas between them.
    #[cycle(exprs)]
    fn exprs<'a>(self, r: u32, tokens: &'a [Lexeme]) -> Step<'a, ReadExprs>
        requires { r < 999 }
        ensures gives { Gives (λ x. list_of x.0) (λ x. x.1.now) result (expr_list r self.most tokens.now) }
        ensures low { IfOk result (λ x. x.0.height ≤ r) }
    {
        let mut back = no_exprs();
        let mut rest = tokens;
        for _ in 0..self.most {
            let (one, after) = self.expr(Level::Expr, r, rest)?;
            back = with_one(self.alloc, one, back)?;
            if !at_symbol(after, Sym::Comma) {
                return Ok((turned(back), after));
            }
            let (_, next) = symbol(after, Sym::Comma)?;
            rest = next;
        }
        let (one, after) = self.expr(Level::Expr, r, rest)?;
        Ok((turned(with_one(self.alloc, one, back)?), after))
    }
}
