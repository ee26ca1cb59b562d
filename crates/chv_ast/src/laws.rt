// What holds of all that is written, as laws on the definitions.
ghost use Rattle.std.specs.Prelude.{List};
ghost use Rattle.chv_ast.specs.Formed.{Each, WellFormed};
ghost use Rattle.chv_ast.specs.GrammarStatements.{IsStatement};
ghost use Rattle.chv_ast.specs.Lexemes.{Lexeme};
ghost use Rattle.chv_ast.specs.Words.{IsSpelled};
ghost use Rattle.chv_ast.specs.declared.statement.Statement.{Statement};

/// What tokens write is well formed, where each of them has a text of its kind.
pub fn law_well_formed()
    ensures { (s : Statement) (tokens : List Lexeme) → Each IsSpelled tokens → IsStatement s tokens → WellFormed s }
{}
