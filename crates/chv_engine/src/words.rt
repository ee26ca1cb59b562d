// The words behind the program's name.
ghost use Rattle.std.specs.Prelude.{◌≡◌, ◌↔◌, IfOk, IsSome};
ghost use Rattle.chv_engine.specs.Words.{run_words};

use std::alloc::AllocError;
use std::marker::Model;

/// The words behind the program's name.
#[derive(Debug, Drop)]
pub struct Words {
    pub items: Vec<String>,
}

impl Model for Words {
    ghost use Rattle.std.specs.Prelude.{List, ℕ, map, string_bytes};
    ghost use Rattle.std.specs.Coded.{coded_list, coded_ℕ};

    ghost Value = { List (List ℕ) };

    ghost coded = { coded_list (coded_list coded_ℕ) };

    ghost view = { λ w. map string_bytes w.items.items };
}

/// What the program is asked to do.
#[derive(Clone, Copy, Debug, PartialEq, Eq)]
pub enum Command {
    /// Runs a script.
    Run,
}

/// The command of these words; None exactly where they have none of its forms. The one form so far is `run`.
pub fn read_words(words: &Words) -> Result<Option<Command>, AllocError>
    ensures { IfOk result (λ command. IsSome command ↔ (words.now ≡ run_words)) }
{
    match words.items.as_slice() {
        [word] if word.as_str() == "run" => Ok(Some(Command::Run)),
        _ => Ok(None),
    }
}
