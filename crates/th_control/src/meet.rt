//! What a value, the end of a statement, or an exception meets.
ghost use Rattle.std.specs.Prelude.{◌≡◌, [], ◌∷◌, List, Bool, true, false, Option, Some, None, IfOk, OnOk, IfSome};
ghost use Rattle.th_meaning.specs.View.{expr_of, body_of};
ghost use Rattle.th_meaning.specs.World.{World};
ghost use Rattle.th_meaning.specs.Meaning.{Value, Truth, Gives, State, Cut, Frame as TheFrame, yielded as is_yielded, returned as is_returned, for_how as is_for_how, at_home as is_at_home, again_in, set_element_of, put_byte_of, put_int_of, put_text_of};
ghost use Rattle.th_steps.specs.Machine.{sink_of as does_sink, value_at, how_at, raise_at, again_at, stmts_at, finish as finishes, selected as is_selected, on_how, on_truth, step_at, now_value, now_eval, At, then_while};
ghost use Rattle.th_control.specs.declared.control.Control.{Control as TheControl};
ghost use Rattle.th_control.specs.declared.control.Rest.TheVariants.{For, Resume};
ghost use Rattle.th_control.specs.Config.{sink_of, how_of, leave_of, use_of, callee_of, selector_of, rest_of, loop_of, state_of, now_of, outer_of};
ghost use Rattle.th_control.specs.Acts.{Does, HasEnd};

use crate::control::{
    Act, Callee, Control, Goal, Home, How, Leave, Now, Raised, Rest, Selector, Sink, Usage,
};
use crate::frame::Frame;
use crate::operate::{binary, unary};
use crate::stack::Stack;
use crate::value::{Kind, RunValue};
use std::alloc::{AllocError, Global};
use std::mem;
use th_meaning::{CoreBody, CoreExpr};

impl<'a> Control<'a> {
    /// A value goes to what waits for it.
    pub(crate) fn value(
        &mut self,
        alloc: Global,
        value: RunValue<'a>,
    ) -> Result<Act<'a>, AllocError>
        ensures { IfOk result (λ act. Does act self.new (λ p lp k st. value_at p value.entry k lp st) self.old) }
    {
        match self.rest.pop() {
            None => Ok(Act::Stuck),
            Some(rest) => self.value_to(alloc, rest, value),
        }
    }

    /// A value goes to this, which was taken from what is still to do.
    fn value_to(
        &mut self,
        alloc: Global,
        rest: Rest<'a>,
        value: RunValue<'a>,
    ) -> Result<Act<'a>, AllocError>
        ensures { IfOk result (λ act. Does act self.new (λ p lp k st. value_at p value.entry (rest_of lp (rest.entry ∷ self.old.rest)) lp st) self.old) }
    {
        match rest {
            Rest::Unary(op) => Ok(unary(op, value)),
            Rest::Right(op, right) => self.eval_then(right, Rest::Binary(op, value)),
            Rest::Binary(op, left) => Ok(binary(op, left, value)),
            Rest::And(right) => Ok(and(value, right)),
            Rest::Or(right) => Ok(or(value, right)),
            Rest::Args(selector, args, purpose) => {
                let done = Vec::new(alloc);
                Ok(Act::Go(Now::Args(done, args, Goal::Call(selected(selector, value), purpose))))
            }
            Rest::More(mut done, args, goal) => {
                done.push(value)?;
                Ok(Act::Go(Now::Args(done, args, goal)))
            }
            Rest::Sink(sink) => Ok(self.sink(sink, value)),
            Rest::Index(index, e) => self.eval_then(index, Rest::Value(value, e)),
            Rest::Value(array, e) => self.eval_then(e, Rest::Sink(Sink::Element(array, value))),
            Rest::If(body, other) => Ok(choice(value, Now::Body(body), Now::Else(other))),
            Rest::While(test, body) => Ok(while_test(value, test, body)),
            Rest::Yield => Ok(Act::Yield(value)),
            Rest::Again(_, _) => Ok(Act::Stuck),
            Rest::Stmts(_) => Ok(Act::Stuck),
            Rest::Caught(_) => Ok(Act::Stuck),
            Rest::Close(_) => Ok(Act::Stuck),
            Rest::Back(_, _, _) => Ok(Act::Stuck),
            Rest::For => Ok(Act::Stuck),
            Rest::Resume(_, _, _) => Ok(Act::Stuck),
        }
    }

    /// What a statement does with its value.
    fn sink(&mut self, sink: Sink<'a>, value: RunValue<'a>) -> Act<'a>
        ensures { Does result self.new (λ p lp k st. on_how (does_sink (sink_of sink.entry) value.entry st) lp k) self.old }
    {
        match sink {
            Sink::Local(k) => {
                self.frame.bind(k, value);
                Act::Go(Now::How(How::Done))
            }
            Sink::Field(class, field) => match self.frame.receiver() {
                None => Act::Stuck,
                Some(number) => Act::SetField(number, class, field, value),
            },
            Sink::Element(array, index) => set_element(array, index, value),
            Sink::Return => Act::Go(Now::How(How::Return(Some(value)))),
            Sink::Raise(name) => Act::Go(Now::Raise(Raised {
                name,
                argument: Some(value),
            })),
            Sink::PutByte => put_byte(value),
            Sink::PutInt => put_int(value),
            Sink::PutText => put_text(value),
        }
    }

    /// How a statement ended goes to what waits for it.
    pub(crate) fn how(&mut self, alloc: Global, how: How<'a>) -> Result<Act<'a>, AllocError>
        ensures { IfOk result (λ act. Does act self.new (λ p lp k st. how_at p (how_of how.entry) k lp st) self.old) }
    {
        match self.rest.pop() {
            None => Ok(Act::Ended(how)),
            Some(rest) => self.how_to(alloc, rest, how),
        }
    }

    /// How a statement ended goes to this, which was taken from what is still to do.
    fn how_to(&mut self, alloc: Global, rest: Rest<'a>, how: How<'a>) -> Result<Act<'a>, AllocError>
        ensures { IfOk result (λ act. Does act self.new (λ p lp k st. how_at p (how_of how.entry) (rest_of lp (rest.entry ∷ self.old.rest)) lp st) self.old) }
    {
        match rest {
            Rest::Unary(_) => Ok(Act::Stuck),
            Rest::Right(_, _) => Ok(Act::Stuck),
            Rest::Binary(_, _) => Ok(Act::Stuck),
            Rest::And(_) => Ok(Act::Stuck),
            Rest::Or(_) => Ok(Act::Stuck),
            Rest::Args(_, _, _) => Ok(Act::Stuck),
            Rest::More(_, _, _) => Ok(Act::Stuck),
            Rest::Sink(_) => Ok(Act::Stuck),
            Rest::Index(_, _) => Ok(Act::Stuck),
            Rest::Value(_, _) => Ok(Act::Stuck),
            Rest::If(_, _) => Ok(Act::Stuck),
            Rest::While(_, _) => Ok(Act::Stuck),
            Rest::Yield => Ok(Act::Stuck),
            Rest::Again(test, body) => self.again(how, test, body),
            Rest::Stmts(others) => Ok(after(how, others)),
            Rest::Caught(_) => Ok(Act::Go(Now::How(how))),
            Rest::Close(weight) => Ok(Act::GiveBack(weight, Now::How(how))),
            Rest::Back(usage, frame, homes) => {
                self.back(frame, homes);
                Ok(finish(usage, returned(how)))
            }
            Rest::For => Ok(self.leave_for(alloc, how)),
            Rest::Resume(frame, local, body) => self.leave_body(how, frame, local, body),
        }
    }

    /// A `for` ends whose iterator ended so.
    fn leave_for(&mut self, alloc: Global, how: How<'a>) -> Act<'a>
        ensures { Does result self.new (λ p lp k st. how_at p (how_of how.entry) (rest_of lp (For ∷ self.old.rest)) lp st) self.old }
    {
        self.at_home(alloc);
        for_how(how)
    }

    /// An exception passes a `for`.
    fn pass_for(&mut self, alloc: Global, raised: Raised<'a>) -> Act<'a>
        ensures { Does result self.new (λ p lp k st. raise_at p raised.entry.name.now raised.entry.argument (rest_of lp (For ∷ self.old.rest)) lp st) self.old }
    {
        self.at_home(alloc);
        Act::Go(Now::Raise(raised))
    }

    /// A yield ends whose loop's body ended so.
    fn leave_body(
        &mut self,
        how: How<'a>,
        frame: Frame<'a>,
        local: u32,
        body: &'a CoreBody,
    ) -> Result<Act<'a>, AllocError>
        ensures { IfOk result (λ act. Does act self.new (λ p lp k st. how_at p (how_of how.entry) (rest_of lp (Resume frame.entry local body.entry ∷ self.old.rest)) lp st) self.old) }
    {
        let ended = yielded(how)?;
        self.resume(frame, local, body)?;
        Ok(Act::GiveBack(64, Now::How(ended)))
    }

    /// What follows the body of a `while` that ended so.
    fn again(
        &mut self,
        how: How<'a>,
        test: &'a CoreExpr,
        body: &'a CoreBody,
    ) -> Result<Act<'a>, AllocError>
        ensures { IfOk result (λ act. Does act self.new (λ p. again_at p (how_of how.entry) (expr_of test.now) (body_of body.now)) self.old) }
    {
        match how {
            How::Done => self.eval_then(test, Rest::While(test, body)),
            How::Exit => Ok(Act::Go(Now::How(How::Done))),
            How::Return(value) => Ok(Act::Go(Now::How(How::Return(value)))),
            How::Cut(leave, loops) => Ok(Act::Go(Now::How(How::Cut(leave, loops)))),
        }
    }

    /// The caller goes on in its own frame.
    fn back(&mut self, frame: Frame<'a>, homes: Stack<Home<'a>>)
        ensures { self.new ≡ record { rest = self.old.rest; frame = frame.entry; homes = homes.entry } }
    {
        let _ = mem::replace(&mut self.frame, frame);
        let _ = mem::replace(&mut self.homes, homes);
    }

    /// The home goes on as its iterator ended.
    fn at_home(&mut self, alloc: Global)
        ensures state { (w : World Value) → state_of self.new w ≡ is_at_home (state_of self.old w) }
        ensures rest { self.new.rest ≡ self.old.rest }
        ensures outer { loop_of self.new.homes ≡ outer_of (loop_of self.old.homes) }
    {
        let frame = match self.homes.pop() {
            None => Frame::new(None, Vec::new(alloc)),
            Some(home) => home.frame,
        };
        let _ = mem::replace(&mut self.frame, frame);
    }

    /// The iterator goes on after its loop's body.
    fn resume(&mut self, frame: Frame<'a>, local: u32, body: &'a CoreBody) -> Result<(), AllocError>
        ensures frame { OnOk result (self.new.frame ≡ frame.entry) }
        ensures rest { OnOk result (self.new.rest ≡ self.old.rest) }
        ensures homes { OnOk result (self.new.homes ≡ record { frame = self.old.frame; local = local; body = body.entry } ∷ self.old.homes) }
    {
        let home = mem::replace(&mut self.frame, frame);
        self.homes.push(Home {
            frame: home,
            local,
            body,
        })
    }

    /// An exception passes what waits for a value or for a statement, up to a handler.
    pub(crate) fn raise(&mut self, alloc: Global, raised: Raised<'a>) -> Result<Act<'a>, AllocError>
        ensures { IfOk result (λ act. Does act self.new (λ p lp k st. raise_at p raised.entry.name.now raised.entry.argument k lp st) self.old) }
    {
        match self.rest.pop() {
            None => Ok(Act::Escaped(raised)),
            Some(rest) => self.raise_to(alloc, rest, raised),
        }
    }

    /// An exception passes this, which was taken from what is still to do.
    fn raise_to(
        &mut self,
        alloc: Global,
        rest: Rest<'a>,
        raised: Raised<'a>,
    ) -> Result<Act<'a>, AllocError>
        ensures { IfOk result (λ act. Does act self.new (λ p lp k st. raise_at p raised.entry.name.now raised.entry.argument (rest_of lp (rest.entry ∷ self.old.rest)) lp st) self.old) }
    {
        match rest {
            Rest::Unary(_) => Ok(Act::Go(Now::Raise(raised))),
            Rest::Right(_, _) => Ok(Act::Go(Now::Raise(raised))),
            Rest::Binary(_, _) => Ok(Act::Go(Now::Raise(raised))),
            Rest::And(_) => Ok(Act::Go(Now::Raise(raised))),
            Rest::Or(_) => Ok(Act::Go(Now::Raise(raised))),
            Rest::Args(_, _, _) => Ok(Act::Go(Now::Raise(raised))),
            Rest::More(_, _, _) => Ok(Act::Go(Now::Raise(raised))),
            Rest::Sink(_) => Ok(Act::Go(Now::Raise(raised))),
            Rest::Index(_, _) => Ok(Act::Go(Now::Raise(raised))),
            Rest::Value(_, _) => Ok(Act::Go(Now::Raise(raised))),
            Rest::If(_, _) => Ok(Act::Go(Now::Raise(raised))),
            Rest::While(_, _) => Ok(Act::Go(Now::Raise(raised))),
            Rest::Yield => Ok(Act::Go(Now::Raise(raised))),
            Rest::Again(_, _) => Ok(Act::Go(Now::Raise(raised))),
            Rest::Stmts(_) => Ok(Act::Go(Now::Raise(raised))),
            Rest::Caught(whens) => Ok(Act::Go(Now::Handle(whens, raised))),
            Rest::Close(weight) => Ok(Act::GiveBack(weight, Now::Raise(raised))),
            Rest::Back(_, frame, homes) => {
                self.back(frame, homes);
                Ok(Act::Go(Now::Raise(raised)))
            }
            Rest::For => Ok(self.pass_for(alloc, raised)),
            Rest::Resume(frame, local, body) => {
                self.resume(frame, local, body)?;
                Ok(Act::GiveBack(64, Now::How(How::Cut(Leave::Raise(raised), 0))))
            }
        }
    }

    /// One step, but for its effect on the world.
    pub fn plan(&mut self, alloc: Global, now: Now<'a>) -> Result<Act<'a>, AllocError>
        ensures { IfOk result (λ act. Does act self.new (λ p. step_at p (now_of now.entry)) self.old) }
    {
        match now {
            Now::Eval(expr) => self.eval(alloc, expr),
            Now::Args(done, args, goal) => self.args(done, args, goal),
            Now::Exec(stmt) => self.exec(alloc, stmt),
            Now::Body(body) => self.body(body),
            Now::Else(other) => self.other(other),
            Now::Handle(whens, raised) => Ok(self.handle(whens, raised)),
            Now::Value(value) => self.value(alloc, value),
            Now::How(how) => self.how(alloc, how),
            Now::Raise(raised) => self.raise(alloc, raised),
        }
    }
}

/// `and`: the right side is left where the left one decides.
fn and<'a>(value: RunValue<'a>, right: &'a CoreExpr) -> Act<'a>
    ensures { (c : TheControl) → Does result c (λ p lp k st. on_truth value.entry st (At (now_eval (expr_of right.now)) lp k st) (At (now_value (Truth false)) lp k st)) c }
{
    choice(value, Now::Eval(right), Now::Value(RunValue::truth(false)))
}

/// `or`: the right side is left where the left one decides.
fn or<'a>(value: RunValue<'a>, right: &'a CoreExpr) -> Act<'a>
    ensures { (c : TheControl) → Does result c (λ p lp k st. on_truth value.entry st (At (now_value (Truth true)) lp k st) (At (now_eval (expr_of right.now)) lp k st)) c }
{
    choice(value, Now::Value(RunValue::truth(true)), Now::Eval(right))
}

/// What follows a test: the first where it holds, else the second.
fn choice<'a>(value: RunValue<'a>, first: Now<'a>, second: Now<'a>) -> Act<'a>
    ensures { (c : TheControl) → Does result c (λ p lp k st. on_truth value.entry st (At (now_of first.entry) lp k st) (At (now_of second.entry) lp k st)) c }
{
    match value.kind() {
        Kind::Int(_) => Act::Stuck,
        Kind::Truth(x) => { if x { Act::Go(first) } else { Act::Go(second) } }
        Kind::Ref(_) => Act::Stuck,
        Kind::Text(_) => Act::Stuck,
    }
}

/// What follows the test of a `while`.
fn while_test<'a>(value: RunValue<'a>, test: &'a CoreExpr, body: &'a CoreBody) -> Act<'a>
    ensures { (c : TheControl) → Does result c (λ p lp k st. value_at p value.entry (then_while (expr_of test.now) (body_of body.now) k) lp st) c }
{
    match value.kind() {
        Kind::Int(_) => Act::Stuck,
        Kind::Truth(x) => {
            if x {
                Act::Again(test, body)
            } else {
                Act::Go(Now::How(How::Done))
            }
        }
        Kind::Ref(_) => Act::Stuck,
        Kind::Text(_) => Act::Stuck,
    }
}

/// What is called of a value.
fn selected<'a>(selector: Selector<'a>, value: RunValue<'a>) -> Callee<'a>
    ensures { callee_of result ≡ is_selected (selector_of selector.entry) value.entry }
{
    match selector {
        Selector::Method(method) => Callee::Method(method, value),
        Selector::Where(method) => Callee::Where(method, value),
    }
}

/// An element of an array is set.
fn set_element<'a>(array: RunValue<'a>, index: RunValue<'a>, value: RunValue<'a>) -> Act<'a>
    ensures { HasEnd result (set_element_of array.entry index.entry value.entry) }
{
    match array.kind() {
        Kind::Int(_) => Act::Stuck,
        Kind::Truth(_) => Act::Stuck,
        Kind::Ref(number) => match index.kind() {
            Kind::Int(i) => Act::SetElement(number, i, value),
            Kind::Truth(_) => Act::Stuck,
            Kind::Ref(_) => Act::Stuck,
            Kind::Text(_) => Act::Stuck,
        },
        Kind::Text(_) => Act::Stuck,
    }
}

/// A byte is put.
fn put_byte<'a>(value: RunValue<'a>) -> Act<'a>
    ensures { HasEnd result (put_byte_of value.entry) }
{
    match value.kind() {
        Kind::Int(n) => Act::PutByte(n),
        Kind::Truth(_) => Act::Stuck,
        Kind::Ref(_) => Act::Stuck,
        Kind::Text(_) => Act::Stuck,
    }
}

/// A number is put.
fn put_int<'a>(value: RunValue<'a>) -> Act<'a>
    ensures { HasEnd result (put_int_of value.entry) }
{
    match value.kind() {
        Kind::Int(n) => Act::PutInt(n),
        Kind::Truth(_) => Act::Stuck,
        Kind::Ref(_) => Act::Stuck,
        Kind::Text(_) => Act::Stuck,
    }
}

/// A text is put.
fn put_text<'a>(value: RunValue<'a>) -> Act<'a>
    ensures { HasEnd result (put_text_of value.entry) }
{
    match value.kind() {
        Kind::Int(_) => Act::Stuck,
        Kind::Truth(_) => Act::Stuck,
        Kind::Ref(_) => Act::Stuck,
        Kind::Text(bytes) => Act::PutText(bytes),
    }
}

/// What follows a statement that ended so.
fn after<'a>(how: How<'a>, others: &'a CoreBody) -> Act<'a>
    ensures { (c : TheControl) → Does result c (λ p. stmts_at p (how_of how.entry) (body_of others.now)) c }
{
    match how {
        How::Done => Act::Go(Now::Body(others)),
        How::Exit => Act::Go(Now::How(How::Exit)),
        How::Return(value) => Act::Go(Now::How(How::Return(value))),
        How::Cut(leave, loops) => Act::Go(Now::How(How::Cut(leave, loops))),
    }
}

/// The value that a unit returned.
fn returned<'a>(how: How<'a>) -> Option<RunValue<'a>>
    ensures { result ≡ is_returned (how_of how.entry) }
{
    match how {
        How::Done => None,
        How::Exit => None,
        How::Return(value) => value,
        How::Cut(_, _) => None,
    }
}

/// The value of a call, for its use.
pub fn finish<'a>(usage: Usage, value: Option<RunValue<'a>>) -> Act<'a>
    ensures { (c : TheControl) → Does result c (λ p. finishes (use_of usage) value.entry) c }
{
    match usage {
        Usage::Value => match value {
            Some(value) => Act::Go(Now::Value(value)),
            None => Act::Stuck,
        },
        Usage::Stmt => Act::Go(Now::How(How::Done)),
        Usage::Object(number) => Act::Go(Now::Value(RunValue::object(number))),
    }
}

/// How a `for` ends whose iterator ended so.
fn for_how<'a>(how: How<'a>) -> Act<'a>
    ensures { HasEnd result (is_for_how (how_of how.entry)) }
{
    match how {
        How::Done => Act::Go(Now::How(How::Done)),
        How::Exit => Act::Go(Now::How(How::Done)),
        How::Return(_) => Act::Go(Now::How(How::Done)),
        How::Cut(leave, loops) => {
            if loops == 0 {
                left(leave)
            } else {
                Act::Go(Now::How(How::Cut(leave, loops - 1)))
            }
        }
    }
}

/// How a `for` ends whose body left it so.
fn left<'a>(leave: Leave<'a>) -> Act<'a>
    ensures { HasEnd result (is_for_how (Cut (leave_of leave.entry))) }
{
    match leave {
        Leave::Break => Act::Go(Now::How(How::Done)),
        Leave::Return(value) => Act::Go(Now::How(How::Return(value))),
        Leave::Raise(raised) => Act::Go(Now::Raise(raised)),
    }
}

/// How a yield ends whose loop's body ended so. There is no memory for 2^64 loops.
fn yielded<'a>(how: How<'a>) -> Result<How<'a>, AllocError>
    ensures { IfOk result (λ end. (frame : TheFrame) (st : State) → is_yielded (record { frame = frame; homes = []; world = st.world }) (Gives (how_of how.entry) st) ≡ Gives (how_of end) (again_in (record { frame = frame; homes = []; world = st.world }) st)) }
{
    match how {
        How::Done => Ok(How::Done),
        How::Exit => Ok(How::Cut(Leave::Break, 0)),
        How::Return(value) => Ok(How::Cut(Leave::Return(value), 0)),
        How::Cut(leave, loops) => match loops.checked_add(1) {
            Some(more) => Ok(How::Cut(leave, more)),
            None => Err(AllocError),
        },
    }
}
