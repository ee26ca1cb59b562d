/// What a token is.
#[derive(Clone, Copy, Debug, PartialEq, Eq)]
pub enum TokenKind {
    /// A name or a keyword; in backquotes it is a name alone.
    Word,
    /// Decimal digits.
    Whole,
    /// A text in quotes.
    Quoted,
    /// An operator, a comma or a parenthesis.
    Sign,
}
