use chv_ast::Refusal;

fn is_told_as(refusal: Refusal, code: u8, name: &str) -> bool {
    refusal.code() == code && refusal.name() == name
}

// The numbers and names that clients are told, as docs/SQL.md has them.
#[test]
fn each_refusal_has_its_number_and_name(rt: HostRuntime) {
    let cases: [(Refusal, u8, &str); 16] = [
        (Refusal::Syntax, 1, "Syntax"),
        (Refusal::UnknownTable, 2, "UnknownTable"),
        (Refusal::UnknownColumn, 3, "UnknownColumn"),
        (Refusal::NameTaken, 4, "NameTaken"),
        (Refusal::UnknownFunction, 5, "UnknownFunction"),
        (Refusal::TypeMismatch, 6, "TypeMismatch"),
        (Refusal::BadLiteral, 7, "BadLiteral"),
        (Refusal::WrongWidth, 8, "WrongWidth"),
        (Refusal::DivisionByZero, 9, "DivisionByZero"),
        (Refusal::ViewCycle, 10, "ViewCycle"),
        (Refusal::TooManyPaths, 11, "TooManyPaths"),
        (Refusal::NeedsFinal, 12, "NeedsFinal"),
        (Refusal::ColumnNotMergeable, 13, "ColumnNotMergeable"),
        (Refusal::AsyncWithViews, 14, "AsyncWithViews"),
        (Refusal::LimitPassed, 15, "LimitPassed"),
        (Refusal::NotBuilt, 16, "NotBuilt"),
    ];
    for (refusal, code, name) in cases {
        assert!(rt; is_told_as(refusal, code, name));
    }
}
