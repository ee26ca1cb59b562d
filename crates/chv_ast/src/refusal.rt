// Refusals.
ghost use Rattle.std.specs.Prelude.{◌≡◌};
ghost use Rattle.chv_ast.specs.Refusals.{code_of, name_of};

/// Why a statement is refused. It then changes nothing.
#[derive(Clone, Copy, Debug, PartialEq, Eq)]
pub enum Refusal {
    /// The piece has a bad token, or is no statement.
    Syntax,
    /// No table has the name.
    UnknownTable,
    /// No column has the name.
    UnknownColumn,
    /// A table, a view or a column has the name already.
    NameTaken,
    /// No function has the name.
    UnknownFunction,
    /// A kind does not fit where it stands.
    TypeMismatch,
    /// A literal is none of the kind, or out of its range.
    BadLiteral,
    /// A row has another number of values than there are columns to fill.
    WrongWidth,
    /// A divisor is zero.
    DivisionByZero,
    /// The target of the view leads back to its source.
    ViewCycle,
    /// A table would have too many view paths, or one that is too long.
    TooManyPaths,
    /// The query would see merges, and FINAL is not there.
    NeedsFinal,
    /// A column of the table has no meaning in a merge.
    ColumnNotMergeable,
    /// The insert is asynchronous, and a view path leads to a table that skips blocks.
    AsyncWithViews,
    /// A limit is passed.
    LimitPassed,
    /// The statement is not built yet.
    NotBuilt,
}

impl Refusal {
    /// The number that a client is told, from 1 to 16.
    pub fn code(self) -> u8
        ensures { result ≡ code_of self }
    {
        match self {
            Refusal::Syntax => 1,
            Refusal::UnknownTable => 2,
            Refusal::UnknownColumn => 3,
            Refusal::NameTaken => 4,
            Refusal::UnknownFunction => 5,
            Refusal::TypeMismatch => 6,
            Refusal::BadLiteral => 7,
            Refusal::WrongWidth => 8,
            Refusal::DivisionByZero => 9,
            Refusal::ViewCycle => 10,
            Refusal::TooManyPaths => 11,
            Refusal::NeedsFinal => 12,
            Refusal::ColumnNotMergeable => 13,
            Refusal::AsyncWithViews => 14,
            Refusal::LimitPassed => 15,
            Refusal::NotBuilt => 16,
        }
    }

    /// The name that a client is told.
    pub fn name(self) -> &'static str
        ensures { result.now ≡ name_of self }
    {
        match self {
            Refusal::Syntax => "Syntax",
            Refusal::UnknownTable => "UnknownTable",
            Refusal::UnknownColumn => "UnknownColumn",
            Refusal::NameTaken => "NameTaken",
            Refusal::UnknownFunction => "UnknownFunction",
            Refusal::TypeMismatch => "TypeMismatch",
            Refusal::BadLiteral => "BadLiteral",
            Refusal::WrongWidth => "WrongWidth",
            Refusal::DivisionByZero => "DivisionByZero",
            Refusal::ViewCycle => "ViewCycle",
            Refusal::TooManyPaths => "TooManyPaths",
            Refusal::NeedsFinal => "NeedsFinal",
            Refusal::ColumnNotMergeable => "ColumnNotMergeable",
            Refusal::AsyncWithViews => "AsyncWithViews",
            Refusal::LimitPassed => "LimitPassed",
            Refusal::NotBuilt => "NotBuilt",
        }
    }
}
