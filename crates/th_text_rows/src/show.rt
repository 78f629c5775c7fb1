//! Trees of types, expressions and statements as texts, with each operator and its operands in parentheses.

use std::alloc::{AllocError, Global};
use th_tree::{
    BinaryOp, Body, ElseTree, ExcTree, Expr, ExprList, Formal, Ident, NameTable, NamedTree,
    RefTree, Stmt, TypeList, TypeTree, WhenList,
};

/// Whether there was memory for a part of a text.
pub type Shown = Result<(), AllocError>;

/// A text of trees. With places, each part follows the byte where it starts and a colon.
#[derive(Drop)]
pub struct Shower<'a> {
    alloc: Global,
    names: &'a NameTable,
    places: bool,
    text: Vec<u8>,
}

/// How an operator is written.
fn sign(op: BinaryOp) -> &'static str {
    match op {
        BinaryOp::Or => " or ",
        BinaryOp::And => " and ",
        BinaryOp::Equal => " = ",
        BinaryOp::NotEqual => " ~= ",
        BinaryOp::Same => " == ",
        BinaryOp::Less => " < ",
        BinaryOp::LessEqual => " <= ",
        BinaryOp::Greater => " > ",
        BinaryOp::GreaterEqual => " >= ",
        BinaryOp::Plus => " + ",
        BinaryOp::Minus => " - ",
        BinaryOp::Join => " & ",
        BinaryOp::Times => " * ",
        BinaryOp::Divide => " / ",
        BinaryOp::Remainder => " % ",
    }
}

impl<'a> Shower<'a> {
    /// The text without trees.
    pub fn new(alloc: Global, names: &'a NameTable, places: bool) -> Self {
        Shower {
            alloc,
            names,
            places,
            text: Vec::new(alloc),
        }
    }

    /// The text.
    pub fn into_text(self) -> Vec<u8> {
        self.text
    }

    /// Appends a text.
    pub fn put(&mut self, text: &str) -> Shown {
        self.text.extend_from_slice(text.as_bytes())
    }

    fn digits(&mut self, number: u32) -> Shown {
        let digits = number.to_string(self.alloc)?;
        self.put(&digits)
    }

    /// Appends a text that starts at this byte.
    pub fn word(&mut self, at: u32, text: &str) -> Shown {
        if self.places {
            self.digits(at)?;
            self.put(":")?;
        }
        self.put(text)
    }

    fn name(&mut self, number: u32) -> Shown {
        match self.names.name(number) {
            Some(name) => self.text.extend_from_slice(name),
            None => self.put("?"),
        }
    }

    /// A name.
    pub fn ident(&mut self, name: Ident) -> Shown {
        self.word(name.at, "")?;
        self.name(name.name)
    }

    /// A reference.
    pub fn reference(&mut self, item: RefTree) -> Shown {
        self.ident(item.first)?;
        match item.second {
            Some(second) => {
                self.put("$")?;
                self.ident(second)
            }
            None => Ok(()),
        }
    }

    /// A type.
    #[cycle(types)]
    pub fn of(&mut self, tree: &TypeTree) -> Shown {
        match tree {
            TypeTree::Int(at) => self.word(*at, "int"),
            TypeTree::Bool(at) => self.word(*at, "bool"),
            TypeTree::Text(at) => self.word(*at, "string"),
            TypeTree::Array(at, of) => {
                self.word(*at, "array[")?;
                self.of(of)?;
                self.put("]")
            }
            TypeTree::Named(item, args) => {
                self.reference(*item)?;
                self.within("[", args, "]")
            }
        }
    }

    /// Types, with commas between them.
    #[cycle(types)]
    pub fn types(&mut self, list: &TypeList) -> Shown {
        let mut left = list;
        while let TypeList::MoreType(first, rest) = left {
            self.of(first)?;
            left = rest;
            if let TypeList::MoreType(..) = left {
                self.put(", ")?;
            }
        }
        Ok(())
    }

    /// Types between brackets, nothing where there are none.
    #[cycle(types)]
    fn within(&mut self, open: &str, list: &TypeList, close: &str) -> Shown {
        if let TypeList::NoType = list {
            return Ok(());
        }
        self.put(open)?;
        self.types(list)?;
        self.put(close)
    }

    /// A named type or class with its arguments.
    pub fn named(&mut self, tree: &NamedTree) -> Shown {
        self.reference(tree.item)?;
        self.within("[", &tree.args, "]")
    }

    /// A name with its type.
    pub fn formal(&mut self, formal: &Formal) -> Shown {
        self.ident(formal.name)?;
        self.put(": ")?;
        self.of(&formal.of)
    }

    /// An expression.
    #[cycle(exprs)]
    pub fn expr(&mut self, tree: &Expr) -> Shown {
        match tree {
            Expr::Number(at, value) => {
                self.word(*at, "")?;
                self.digits(*value)
            }
            Expr::Text(at, value) => {
                self.word(*at, "\"")?;
                self.name(*value)?;
                self.put("\"")
            }
            Expr::True(at) => self.word(*at, "true"),
            Expr::False(at) => self.word(*at, "false"),
            Expr::PartSelf(at) => self.word(*at, "self"),
            Expr::GetByte(at) => self.word(*at, "get_byte()"),
            _ => self.call(tree),
        }
    }

    /// An expression with an item, a class or a method.
    #[cycle(exprs)]
    fn call(&mut self, tree: &Expr) -> Shown {
        match tree {
            Expr::Super(at, method, args) => {
                self.word(*at, "super.")?;
                self.ident(*method)?;
                self.args(args)
            }
            Expr::Item(at, item, types) => {
                self.word(*at, "")?;
                self.reference(*item)?;
                self.within("{", types, "}")
            }
            Expr::Call(at, item, types, args) => {
                self.word(*at, "")?;
                self.reference(*item)?;
                self.within("{", types, "}")?;
                self.args(args)
            }
            Expr::New(at, class, args) => {
                self.word(*at, "new ")?;
                self.named(class)?;
                self.args(args)
            }
            Expr::Method(at, of, method, args) => {
                self.after(*at, of, ".")?;
                self.ident(*method)?;
                self.args(args)
            }
            _ => self.part(tree),
        }
    }

    /// An expression with a field, an element or a new array.
    #[cycle(exprs)]
    fn part(&mut self, tree: &Expr) -> Shown {
        match tree {
            Expr::Field(at, of, field) => {
                self.after(*at, of, ".")?;
                self.ident(*field)
            }
            Expr::Length(at, of) => self.after(*at, of, ".length"),
            Expr::Element(at, of, index) => {
                self.after(*at, of, "[")?;
                self.expr(index)?;
                self.put("]")
            }
            Expr::NewArray(at, of, length, fill) => {
                self.word(*at, "new array[")?;
                self.of(of)?;
                self.put("](")?;
                self.expr(length)?;
                self.put(", ")?;
                self.expr(fill)?;
                self.put(")")
            }
            _ => self.operation(tree),
        }
    }

    /// An operator with its operands.
    #[cycle(exprs)]
    fn operation(&mut self, tree: &Expr) -> Shown {
        match tree {
            Expr::Not(at, of) => {
                self.word(*at, "(not ")?;
                self.expr(of)?;
                self.put(")")
            }
            Expr::Negative(at, of) => {
                self.word(*at, "(-")?;
                self.expr(of)?;
                self.put(")")
            }
            Expr::Binary(at, op, left, right) => {
                self.word(*at, "(")?;
                self.expr(left)?;
                self.put(sign(*op))?;
                self.expr(right)?;
                self.put(")")
            }
            _ => Ok(()),
        }
    }

    /// An expression that starts at this byte and goes on behind `of`.
    #[cycle(exprs)]
    fn after(&mut self, at: u32, of: &Expr, sign: &str) -> Shown {
        self.word(at, "")?;
        self.expr(of)?;
        self.put(sign)
    }

    /// Arguments in parentheses.
    #[cycle(exprs)]
    pub fn args(&mut self, list: &ExprList) -> Shown {
        self.put("(")?;
        let mut left = list;
        while let ExprList::MoreExpr(first, rest) = left {
            self.expr(first)?;
            left = rest;
            if let ExprList::MoreExpr(..) = left {
                self.put(", ")?;
            }
        }
        self.put(")")
    }

    fn exception(&mut self, tree: &ExcTree) -> Shown {
        match tree {
            ExcTree::Declared(item) => self.reference(*item),
            ExcTree::Overflow(at) => self.word(*at, "overflow"),
            ExcTree::ZeroDivide(at) => self.word(*at, "zero_divide"),
            ExcTree::Bounds(at) => self.word(*at, "bounds"),
            ExcTree::EndOfInput(at) => self.word(*at, "end_of_input"),
        }
    }

    /// A statement of one expression.
    fn simple(&mut self, at: u32, open: &str, value: &Expr, close: &str) -> Shown {
        self.word(at, open)?;
        self.expr(value)?;
        self.put(close)
    }

    /// A statement.
    #[cycle(stmts)]
    fn stmt(&mut self, tree: &Stmt) -> Shown {
        match tree {
            Stmt::Plain(at, value) => self.simple(*at, "", value, "; "),
            Stmt::Break(at) => self.word(*at, "break; "),
            Stmt::Return(at) => self.word(*at, "return; "),
            Stmt::ReturnValue(at, value) => self.simple(*at, "return ", value, "; "),
            Stmt::Yield(at, value) => self.simple(*at, "yield ", value, "; "),
            Stmt::PutByte(at, value) => self.simple(*at, "put_byte(", value, "); "),
            Stmt::PutInt(at, value) => self.simple(*at, "put_int(", value, "); "),
            Stmt::PutString(at, value) => self.simple(*at, "put_string(", value, "); "),
            _ => self.effect(tree),
        }
    }

    /// A variable, an assignment or a raise.
    #[cycle(stmts)]
    fn effect(&mut self, tree: &Stmt) -> Shown {
        match tree {
            Stmt::Var(at, variable, value) => {
                self.word(*at, "var ")?;
                self.formal(variable)?;
                self.put(" := ")?;
                self.expr(value)?;
                self.put("; ")
            }
            Stmt::Assign(at, target, value) => {
                self.simple(*at, "", target, " := ")?;
                self.expr(value)?;
                self.put("; ")
            }
            Stmt::Raise(at, exc) => {
                self.word(*at, "raise ")?;
                self.exception(exc)?;
                self.put("; ")
            }
            Stmt::RaiseValue(at, exc, value) => {
                self.word(*at, "raise ")?;
                self.exception(exc)?;
                self.put("(")?;
                self.expr(value)?;
                self.put("); ")
            }
            _ => self.nested(tree),
        }
    }

    /// A statement with statements in it.
    #[cycle(stmts)]
    fn nested(&mut self, tree: &Stmt) -> Shown {
        match tree {
            Stmt::If(at, test, body, rest) => {
                self.simple(*at, "if ", test, " then ")?;
                self.body(body)?;
                self.otherwise(rest)
            }
            Stmt::While(at, test, body) => {
                self.simple(*at, "while ", test, " do ")?;
                self.body(body)?;
                self.put("end ")
            }
            Stmt::For(at, variable, of, body) => {
                self.word(*at, "for ")?;
                self.formal(variable)?;
                self.put(" in ")?;
                self.expr(of)?;
                self.put(" do ")?;
                self.body(body)?;
                self.put("end ")
            }
            Stmt::Begin(at, body, whens) => {
                self.word(*at, "begin ")?;
                self.body(body)?;
                self.put("except ")?;
                self.whens(whens)
            }
            _ => Ok(()),
        }
    }

    /// Statements, each with a blank behind it.
    #[cycle(stmts)]
    pub fn body(&mut self, list: &Body) -> Shown {
        let mut left = list;
        while let Body::MoreStmt(first, rest) = left {
            self.stmt(first)?;
            left = rest;
        }
        Ok(())
    }

    /// What follows the statements after a `then`, with the `end`.
    #[cycle(stmts)]
    fn otherwise(&mut self, tree: &ElseTree) -> Shown {
        let mut left = tree;
        while let ElseTree::Elseif(at, test, body, rest) = left {
            self.simple(*at, "elseif ", test, " then ")?;
            self.body(body)?;
            left = rest;
        }
        if let ElseTree::Else(body) = left {
            self.put("else ")?;
            self.body(body)?;
        }
        self.put("end ")
    }

    /// Handlers, with the `end`.
    #[cycle(stmts)]
    fn whens(&mut self, list: &WhenList) -> Shown {
        let mut left = list;
        while let WhenList::MoreWhen(at, exc, variable, body, rest) = left {
            self.word(*at, "when ")?;
            self.exception(exc)?;
            self.variable(variable)?;
            self.put(" do ")?;
            self.body(body)?;
            left = rest;
        }
        self.put("end ")
    }

    fn variable(&mut self, variable: &Option<Formal>) -> Shown {
        let Some(formal) = variable else {
            return Ok(());
        };
        self.put("(")?;
        self.formal(formal)?;
        self.put(")")
    }
}
