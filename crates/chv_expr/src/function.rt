// Functions.
ghost use Rattle.std.specs.Prelude.{◌≡◌};
ghost use Rattle.chv_expr.specs.Terms.{function_named};

/// A function of an expression.
#[derive(Clone, Copy, Debug, PartialEq, Eq)]
pub enum Function {
    /// `modulo(a, b)`, which is `a % b`.
    Modulo,
    /// `intDiv(a, b)`: the quotient, towards zero.
    IntDiv,
    /// `length(s)`: the number of bytes of a text.
    Length,
    /// `if(c, a, b)`: `a` where `c` is true, else `b`.
    If,
    /// `toUInt64(x)`.
    ToUInt64,
    /// `toInt64(x)`.
    ToInt64,
}

/// The function with this name, matched letter by letter.
#[tactic(auto, unfolding(crate::specs::Terms::function_named))]
pub fn function_named(name: &[u8]) -> Option<Function>
    ensures { result ≡ function_named name.now }
{
    if name == b"modulo".as_slice() {
        Some(Function::Modulo)
    } else if name == b"intDiv".as_slice() {
        Some(Function::IntDiv)
    } else if name == b"length".as_slice() {
        Some(Function::Length)
    } else if name == b"if".as_slice() {
        Some(Function::If)
    } else if name == b"toUInt64".as_slice() {
        Some(Function::ToUInt64)
    } else if name == b"toInt64".as_slice() {
        Some(Function::ToInt64)
    } else {
        None
    }
}
