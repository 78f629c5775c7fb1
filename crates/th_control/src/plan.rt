//! The first steps of expressions, calls and statements.
ghost use Rattle.std.specs.Prelude.{◌≡◌, ◌∷◌, List, Option, option_map, IfOk, OnOk, bytes_eq};
ghost use Rattle.th_meaning.specs.World.{World};
ghost use Rattle.th_meaning.specs.View.{expr_of, exprs_of, call_of, stmt_of, body_of, else_of, whens_of, variable_of};
ghost use Rattle.th_meaning.specs.Meaning.{Value, bind_argument, self_of, local_of, field_of};
ghost use Rattle.th_steps.specs.Machine.{eval_at, call_at, args_at, exec_at, body_at, else_at, handle_at, on_value, a_use};
ghost use Rattle.th_control.specs.Config.{purpose_of, goal_of, use_of, state_of};
ghost use Rattle.th_control.specs.Acts.{Does};
ghost use Rattle.th_control.specs.declared.control.Act.TheVariants.{Go};
ghost use Rattle.th_control.specs.declared.control.Now.TheVariants.{Eval};

use crate::control::{
    Act, Binary, Callee, Control, Goal, How, Now, Purpose, Raised, Rest, Selector, Sink, Unary,
    Usage,
};
use crate::value::RunValue;
use std::alloc::{AllocError, Global};
use th_meaning::{
    CoreBody, CoreCall, CoreElse, CoreExpr, CoreExprList, CoreStmt, CoreVariable, CoreWhenList,
};

impl<'a> Control<'a> {
    /// Evaluates an expression, and then does what waits for its value.
    pub(crate) fn eval_then(
        &mut self,
        expr: &'a CoreExpr,
        rest: Rest<'a>,
    ) -> Result<Act<'a>, AllocError>
        ensures act { IfOk result (λ act. act ≡ Go (Eval expr.entry)) }
        ensures pushed { OnOk result (self.new ≡ record self.old { rest = rest.entry ∷ self.old.rest }) }
    {
        self.rest.push(rest)?;
        Ok(Act::Go(Now::Eval(expr)))
    }

    /// The first step of an expression.
    pub(crate) fn eval(&mut self, alloc: Global, expr: &'a CoreExpr) -> Result<Act<'a>, AllocError>
        ensures { IfOk result (λ act. Does act self.new (λ p. eval_at p (expr_of expr.now)) self.old) }
    {
        match expr {
            CoreExpr::Number(n) => Ok(Act::Go(Now::Value(RunValue::natural(*n)))),
            CoreExpr::Truth(b) => Ok(Act::Go(Now::Value(RunValue::truth(*b)))),
            CoreExpr::Literal(bytes) => Ok(Act::Go(Now::Value(RunValue::text(bytes.as_slice())))),
            CoreExpr::PartSelf => Ok(self.itself()),
            CoreExpr::Local(k) => Ok(self.local(*k)),
            CoreExpr::Field(class, field) => Ok(self.field(class.as_bytes(), *field)),
            CoreExpr::Negative(a) => self.eval_then(a, Rest::Unary(Unary::Negative)),
            CoreExpr::Arith(op, a, b) => self.eval_then(a, Rest::Right(Binary::Arith(*op), b)),
            CoreExpr::Compare(op, a, b) => self.eval_then(a, Rest::Right(Binary::Compare(*op), b)),
            CoreExpr::Same(a, b) => self.eval_then(a, Rest::Right(Binary::Same, b)),
            CoreExpr::Not(a) => self.eval_then(a, Rest::Unary(Unary::Not)),
            CoreExpr::And(a, b) => self.eval_then(a, Rest::And(b)),
            CoreExpr::Or(a, b) => self.eval_then(a, Rest::Or(b)),
            CoreExpr::Join(a, b) => self.eval_then(a, Rest::Right(Binary::Join, b)),
            CoreExpr::Letter(a, b) => self.eval_then(a, Rest::Right(Binary::Letter, b)),
            CoreExpr::Extent(a) => self.eval_then(a, Rest::Unary(Unary::Extent)),
            CoreExpr::Element(a, b) => self.eval_then(a, Rest::Right(Binary::Element, b)),
            CoreExpr::Length(a) => self.eval_then(a, Rest::Unary(Unary::Length)),
            CoreExpr::Cast(_, a) => Ok(Act::Go(Now::Eval(a))),
            CoreExpr::Call(call) => self.call(alloc, call, Purpose::Plain(Usage::Value)),
            CoreExpr::New(class, _, _, args) => Ok(Act::NewObject(class.as_bytes(), args)),
            CoreExpr::NewArray(_, a, b) => self.eval_then(a, Rest::Right(Binary::NewArray, b)),
            CoreExpr::GetByte => Ok(Act::GetByte),
        }
    }

    /// `self`
    fn itself(&self) -> Act<'a>
        ensures { Does result self.now (λ p lp k st. on_value (self_of st) lp k) self.now }
    {
        match self.frame.receiver() {
            None => Act::Stuck,
            Some(number) => Act::Go(Now::Value(RunValue::object(number))),
        }
    }

    /// A local.
    fn local(&self, k: u32) -> Act<'a>
        ensures { Does result self.now (λ p lp rest st. on_value (local_of k st) lp rest) self.now }
    {
        match self.frame.value(k) {
            None => Act::Unset,
            Some(value) => Act::Go(Now::Value(value)),
        }
    }

    /// A field of `self`.
    fn field(&self, class: &'a [u8], field: u32) -> Act<'a>
        ensures { Does result self.now (λ p lp k st. on_value (field_of class.now field st) lp k) self.now }
    {
        match self.frame.receiver() {
            None => Act::Stuck,
            Some(number) => Act::Field(number, class, field),
        }
    }

    /// The first step of a call.
    pub(crate) fn call(
        &mut self,
        alloc: Global,
        call: &'a CoreCall,
        purpose: Purpose<'a>,
    ) -> Result<Act<'a>, AllocError>
        ensures { IfOk result (λ act. Does act self.new (λ p. call_at (call_of call.now) (purpose_of purpose.entry)) self.old) }
    {
        match call {
            CoreCall::Routine(unit, _, _, args) => {
                let goal = Goal::Call(Callee::Routine(unit.as_bytes()), purpose);
                Ok(Act::Go(Now::Args(Vec::new(alloc), args, goal)))
            }
            CoreCall::Method(_, method, receiver, args) => {
                let selector = Selector::Method(method.as_bytes());
                self.eval_then(receiver, Rest::Args(selector, args, purpose))
            }
            CoreCall::Hidden(_, method, args) => match self.frame.receiver() {
                None => Ok(Act::Stuck),
                Some(number) => {
                    let goal = Goal::Call(Callee::Object(method.as_bytes(), number), purpose);
                    Ok(Act::Go(Now::Args(Vec::new(alloc), args, goal)))
                }
            },
            CoreCall::Super(class, method, args) => match self.frame.receiver() {
                None => Ok(Act::Stuck),
                Some(number) => {
                    let callee = Callee::Super(class.as_bytes(), method.as_bytes(), number);
                    Ok(Act::Go(Now::Args(Vec::new(alloc), args, Goal::Call(callee, purpose))))
                }
            },
            CoreCall::Where(_, method, receiver, args) => {
                let selector = Selector::Where(method.as_bytes());
                self.eval_then(receiver, Rest::Args(selector, args, purpose))
            }
            CoreCall::SuperInit(class, _, _, args) => match self.frame.receiver() {
                None => Ok(Act::Stuck),
                Some(number) => {
                    let goal = Goal::Call(Callee::Init(class.as_bytes(), number), purpose);
                    Ok(Act::Go(Now::Args(Vec::new(alloc), args, goal)))
                }
            },
        }
    }

    /// The arguments from one on, of which some are there.
    pub(crate) fn args(
        &mut self,
        done: Vec<RunValue<'a>>,
        args: &'a CoreExprList,
        goal: Goal<'a>,
    ) -> Result<Act<'a>, AllocError>
        ensures { IfOk result (λ act. Does act self.new (λ p. args_at p done.entry.items (exprs_of args.now) (goal_of goal.entry)) self.old) }
    {
        match args {
            CoreExprList::MoreExpr(first, others) => {
                self.eval_then(first, Rest::More(done, others, goal))
            }
            CoreExprList::NoExpr => match goal {
                Goal::Call(callee, purpose) => Ok(Act::Call(callee, done, purpose)),
                Goal::NewObject(class, number) => Ok(Act::Init(class, number, done)),
            },
        }
    }

    /// The first step of a statement.
    pub(crate) fn exec(&mut self, alloc: Global, stmt: &'a CoreStmt) -> Result<Act<'a>, AllocError>
        ensures { IfOk result (λ act. Does act self.new (λ p. exec_at p (stmt_of stmt.now)) self.old) }
    {
        match stmt {
            CoreStmt::Var(variable, e) => {
                self.eval_then(e, Rest::Sink(Sink::Local(variable.local)))
            }
            CoreStmt::SetLocal(k, e) => self.eval_then(e, Rest::Sink(Sink::Local(*k))),
            CoreStmt::SetField(class, field, e) => {
                self.eval_then(e, Rest::Sink(Sink::Field(class.as_bytes(), *field)))
            }
            CoreStmt::SetElement(a, i, e) => self.eval_then(a, Rest::Index(i, e)),
            CoreStmt::Call(call) => self.call(alloc, call, Purpose::Plain(Usage::Stmt)),
            CoreStmt::Drop(call) => self.call(alloc, call, Purpose::Plain(Usage::Stmt)),
            CoreStmt::If(e, body, other) => self.eval_then(e, Rest::If(body, other)),
            CoreStmt::While(e, body) => self.eval_then(e, Rest::While(e, body)),
            CoreStmt::For(variable, _, call, body) => {
                self.call(alloc, call, Purpose::For(variable.local, body))
            }
            CoreStmt::Break => Ok(Act::Go(Now::How(How::Exit))),
            CoreStmt::Return => Ok(Act::Go(Now::How(How::Return(None)))),
            CoreStmt::ReturnValue(e) => self.eval_then(e, Rest::Sink(Sink::Return)),
            CoreStmt::Yield(e) => self.eval_then(e, Rest::Yield),
            CoreStmt::Raise(x) => Ok(Act::Go(Now::Raise(Raised {
                name: x.as_bytes(),
                argument: None,
            }))),
            CoreStmt::RaiseValue(x, e) => self.eval_then(e, Rest::Sink(Sink::Raise(x.as_bytes()))),
            CoreStmt::Begin(body, whens) => {
                self.rest.push(Rest::Caught(whens))?;
                Ok(Act::Go(Now::Body(body)))
            }
            CoreStmt::PutByte(e) => self.eval_then(e, Rest::Sink(Sink::PutByte)),
            CoreStmt::PutInt(e) => self.eval_then(e, Rest::Sink(Sink::PutInt)),
            CoreStmt::PutString(e) => self.eval_then(e, Rest::Sink(Sink::PutText)),
        }
    }

    /// The first step of statements.
    pub(crate) fn body(&mut self, body: &'a CoreBody) -> Result<Act<'a>, AllocError>
        ensures { IfOk result (λ act. Does act self.new (λ p. body_at p (body_of body.now)) self.old) }
    {
        match body {
            CoreBody::NoStmt => Ok(Act::Go(Now::How(How::Done))),
            CoreBody::MoreStmt(first, others) => {
                self.rest.push(Rest::Stmts(others))?;
                Ok(Act::Go(Now::Exec(first)))
            }
        }
    }

    /// The first step of what follows the statements after a `then`.
    pub(crate) fn other(&mut self, other: &'a CoreElse) -> Result<Act<'a>, AllocError>
        ensures { IfOk result (λ act. Does act self.new (λ p. else_at p (else_of other.now)) self.old) }
    {
        match other {
            CoreElse::NoElse => Ok(Act::Go(Now::How(How::Done))),
            CoreElse::Else(body) => Ok(Act::Go(Now::Body(body))),
            CoreElse::Elseif(e, body, next) => self.eval_then(e, Rest::If(body, next)),
        }
    }

    /// An exception at the first of handlers.
    pub(crate) fn handle(&mut self, whens: &'a CoreWhenList, raised: Raised<'a>) -> Act<'a>
        ensures { Does result self.new (λ p. handle_at p (whens_of whens.now) raised.entry.name.now raised.entry.argument) self.old }
    {
        match whens {
            CoreWhenList::NoWhen => Act::Go(Now::Raise(raised)),
            CoreWhenList::MoreWhen(name, variable, body, others) => {
                if raised.name == name.as_bytes() {
                    self.bind(variable, raised.argument);
                    Act::Go(Now::Body(body))
                } else {
                    Act::Go(Now::Handle(others, raised))
                }
            }
        }
    }

    /// Binds a handler's variable to the exception's argument, where both are there.
    fn bind(&mut self, variable: &Option<CoreVariable>, argument: Option<RunValue<'a>>)
        ensures bound { (w : World Value) → state_of self.new w ≡ bind_argument (option_map variable_of variable.now) argument.entry (state_of self.old w) }
        ensures rest { self.new.rest ≡ self.old.rest }
        ensures homes { self.new.homes ≡ self.old.homes }
    {
        match variable {
            None => {}
            Some(variable) => match argument {
                None => {}
                Some(value) => self.frame.bind(variable.local, value),
            },
        }
    }
}
