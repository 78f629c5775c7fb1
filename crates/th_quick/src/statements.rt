//! Statements that bind a local to the value of a short expression.
ghost use Rattle.std.specs.Prelude.{◌≡◌, IfSome, IfNone};
ghost use Rattle.th_meaning.specs.View.{expr_of, stmt_of, body_of};
ghost use Rattle.th_quick.specs.Statements.{Binds, BodyGoes};

use crate::values::quick;
use th_control::Control;
use th_meaning::{CoreBody, CoreExpr, CoreStmt};

/// Does the first of these statements, where it binds a local to the value of a short expression, and gives the others;
/// None where it is another one, which is left undone.
pub fn quick_stmt<'a>(control: &mut Control<'a>, body: &'a CoreBody) -> Option<&'a CoreBody>
    ensures goes { IfSome result (λ others. BodyGoes control.old.frame (body_of body.now) control.new.frame (body_of others.now)) }
    ensures rest { control.new.rest ≡ control.old.rest }
    ensures homes { control.new.homes ≡ control.old.homes }
    ensures none { IfNone result (control.new ≡ control.old) }
{
    match body {
        CoreBody::NoStmt => None,
        CoreBody::MoreStmt(stmt, others) => match binding(stmt) {
            None => None,
            Some((local, expr)) => match quick(&control.frame, expr) {
                None => None,
                Some(value) => {
                    control.frame.bind(local, value);
                    Some(others)
                }
            },
        },
    }
}

/// The local and the expression of a statement that binds one.
fn binding(stmt: &CoreStmt) -> Option<(u32, &CoreExpr)>
    ensures { IfSome result (λ bound. Binds (stmt_of stmt.now) bound.0 (expr_of bound.1.now)) }
{
    match stmt {
        CoreStmt::Var(variable, expr) => Some((variable.local, expr)),
        CoreStmt::SetLocal(local, expr) => Some((*local, expr)),
        _ => None,
    }
}
