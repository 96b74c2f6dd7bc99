// What terms come to as expressions.

use kl1_model::Number;

/// What a term comes to as an expression: a number or a fault of computing; the wait for an unbound variable; or it is no
/// expression of at most 64 operators.
#[derive(Clone, Copy)]
pub enum Evaluated<V> {
    ComesTo(Number),
    Awaits(V),
    IsNoExpression,
}
