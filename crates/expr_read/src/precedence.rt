//! The precedence of operators.

/// The precedence of infix operators; those that bind tightest come first.
#[derive(Clone, Copy)]
pub(crate) enum Precedence {
    /// `*`, `/` and `%`
    Product,
    /// `+` and `-`
    Sum,
    /// `<`, `<=`, `>` and `>=`
    Relation,
    /// `==` and `!=`
    Equality,
    /// `&&` and `&`
    Conjunction,
    /// `||` and `|`
    Disjunction,
}
