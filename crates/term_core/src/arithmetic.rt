//! Checked arithmetic on numbers of 64 bits.

ghost use Rattle.std.specs.Prelude.{◌≡◌, ◌+ℤ◌, ◌-ℤ◌, ◌*ℤ◌, int_div, int_rem};
ghost use Rattle.term_core.specs.Arith.{fitted, divided, truth, holds, arithmetic, unary_value, decided};

use crate::fault::ExprFault;
use crate::operator::{BinOp, UnOp};

// The sum, if it fits 64 bits.
fn sum(a: i64, b: i64) -> Result<i64, ExprFault>
    ensures { result ≡ fitted (a +ℤ b) }
{
    match a.checked_add(b) {
        Some(z) => Ok(z),
        None => Err(ExprFault::Overflow),
    }
}

// The difference, if it fits 64 bits.
fn difference(a: i64, b: i64) -> Result<i64, ExprFault>
    ensures { result ≡ fitted (a -ℤ b) }
{
    match a.checked_sub(b) {
        Some(z) => Ok(z),
        None => Err(ExprFault::Overflow),
    }
}

// The product, if it fits 64 bits.
fn product(a: i64, b: i64) -> Result<i64, ExprFault>
    ensures { result ≡ fitted (a *ℤ b) }
{
    match a.checked_mul(b) {
        Some(z) => Ok(z),
        None => Err(ExprFault::Overflow),
    }
}

// The quotient, rounded towards 0, if the divisor is not 0 and it fits 64 bits.
fn quotient(a: i64, b: i64) -> Result<i64, ExprFault>
    ensures { result ≡ divided a b (int_div a b) }
{
    if b == 0 {
        return Err(ExprFault::Divide);
    }
    match a.checked_div(b) {
        Some(z) => Ok(z),
        None => Err(ExprFault::Overflow),
    }
}

// The remainder, with the sign of `a`, if the divisor is not 0 and the quotient fits 64 bits.
fn remainder(a: i64, b: i64) -> Result<i64, ExprFault>
    ensures { result ≡ divided a b (int_rem a b) }
{
    if b == 0 {
        return Err(ExprFault::Divide);
    }
    match a.checked_rem(b) {
        Some(z) => Ok(z),
        None => Err(ExprFault::Overflow),
    }
}

// A condition as a number: 1 if it holds, else 0.
fn number(condition: bool) -> i64
    ensures { result ≡ truth condition }
{
    if condition { 1 } else { 0 }
}

/// The value of a binary operation on two numbers, or its fault.
#[inline(always)]
pub fn arith(op: BinOp, a: i64, b: i64) -> Result<i64, ExprFault>
    ensures { result ≡ arithmetic op a b }
{
    match op {
        BinOp::Add => sum(a, b),
        BinOp::Sub => difference(a, b),
        BinOp::Mul => product(a, b),
        BinOp::Div => quotient(a, b),
        BinOp::Rem => remainder(a, b),
        BinOp::Eq => Ok(number(a == b)),
        BinOp::Ne => Ok(number(a != b)),
        BinOp::Lt => Ok(number(a < b)),
        BinOp::Le => Ok(number(a <= b)),
        BinOp::Gt => Ok(number(a > b)),
        BinOp::Ge => Ok(number(a >= b)),
        BinOp::And => Ok(number(a != 0 && b != 0)),
        BinOp::Or => Ok(number(a != 0 || b != 0)),
    }
}

/// The value of a unary operation on a number, or its fault.
pub fn unary(op: UnOp, a: i64) -> Result<i64, ExprFault>
    ensures { result ≡ unary_value op a }
{
    match op {
        UnOp::Neg => match a.checked_neg() {
            Some(z) => Ok(z),
            None => Err(ExprFault::Overflow),
        },
        UnOp::Not => Ok(number(a == 0)),
    }
}

/// The value of a binary operation that its left operand decides: 0 for `&&` after 0, 1 for `||` after any other
/// number. None if both operands are needed.
#[inline(always)]
pub fn decide(op: BinOp, a: i64) -> Option<i64>
    ensures { result ≡ decided op a }
{
    match op {
        BinOp::And => { if a == 0 { Some(0) } else { None } }
        BinOp::Or => { if a == 0 { None } else { Some(1) } }
        _ => None,
    }
}
