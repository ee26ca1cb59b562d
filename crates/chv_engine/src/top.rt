// The whole call.
ghost use Rattle.std.specs.Prelude.{◌≡◌, ◌≢◌, ◌⊎◌, ◌≤◌, List, ℕ, length};
ghost use Rattle.chv_history.specs.Guarantees.{IsLeftWhole};
ghost use Rattle.chv_history.specs.Histories.{History, Settles};
ghost use Rattle.chv_history.specs.Kept.{Kept, Refuses};
ghost use Rattle.chv_history.specs.Script.{requests_of};
ghost use Rattle.chv_site.specs.During.{During};
ghost use Rattle.chv_site.specs.Outside.{bytes_in};
ghost use Rattle.chv_engine.specs.Damage.{HasKept, IsOpeningDamaged, FirstMeets};
ghost use Rattle.chv_engine.specs.Ends.{IfEnded, EndsWithoutFault, IsCausedBy, MeetsNoFault, EndsAt, SaysDamage, AnswersDamage, PulledAs, LeavesSite};
ghost use Rattle.chv_engine.specs.Pulls.{MAX_SCRIPT};
ghost use Rattle.chv_engine.specs.Words.{run_words};

use crate::pull::{PullFault, pull_script};
use crate::run::run_script;
use crate::{Command, Status, Words, read_words};
use chv_flight::RunFault;
use chv_site::{Site, Source};
use chv_types::Bytes;
use std::alloc::Global;

/// Does what the words ask. `run` pulls the source to its end, and answers its statements on the store that the site holds.
///
/// A status from `DiskFault` on cuts the run off where it was: the files then stand for the history of some moment of it.
pub fn chviews<S: Source, W: Site>(
    alloc: Global,
    words: &Words,
    source: &mut S,
    site: &mut W,
) -> Status
    ensures words { words.now ≢ run_words → ((result ≡ Status.BadWords) ⊎ (result ≡ Status.NoMemory)) × (source.new ≡ source.old) × (site.new ≡ site.old) }
    ensures bad_words { result ≡ Status.BadWords → (words.now ≢ run_words) × (source.new ≡ source.old) }
    // The script is pulled to its end, or beyond the bound by one pull at most, before the store is opened.
    ensures pulled { S.tells → PulledAs result (S.left source.old) (S.left source.new) }
    ensures untouched { LeavesSite result site.old site.new }
    // The first fault ends the run.
    ensures cause { IsCausedBy result (S.faults source.old) (S.faults source.new) (W.outside site.old) (W.outside site.new) }
    // Without a fault the run comes to its end, or to damage.
    ensures complete { words.now ≡ run_words → S.tells → length (S.left source.old) ≤ MAX_SCRIPT → MeetsNoFault (S.faults source.old) (S.faults source.new) (W.outside site.old) (W.outside site.new) → EndsWithoutFault result }
    // A run that comes to its end has said the replies to all requests, and the files stand for the history behind its events.
    ensures ended { S.tells → W.tells → (history : History) → Settles (W.outside site.old).files history
        → IfEnded result (EndsAt (requests_of (S.left source.old)) history (W.outside site.old) (W.outside site.new)) }
    // Whatever the files stand for, whether a statement is refused follows from the script and what the logs say; of a query that
    // no check refuses it follows from the rows, where it may divide by zero.
    ensures refused { S.tells → W.tells → IfEnded result (λ refused. (kept : Kept) → HasKept (bytes_in (W.outside site.old)) kept → Refuses (requests_of (S.left source.old)) kept refused) }
    // At any moment since the call began, whatever a crash leaves: the files stand for the history behind some of the run's
    // events, and the text is the one behind them, or goes on by a front of what the next event says. There each insert whose
    // Ok line was said to its end is held, whole where ids and tokens tell blocks apart, and no block is twice within a window.
    ensures during { S.tells → W.tells → (history : History) → Settles (W.outside site.old).files history → During (W.outside site.old) (W.outside site.new)
        (IsLeftWhole (requests_of (S.left source.old)) history (W.outside site.old).said) }
    // Damage is told only where a file is damaged, by the last line that was said, and never where the files stand for a history.
    ensures damaged { W.tells → result ≡ Status.Damaged → SaysDamage (W.outside site.old) (W.outside site.new) }
    ensures undamaged { W.tells → (history : History) → Settles (W.outside site.old).files history → result ≢ Status.Damaged }
    // Without a fault it is always told of a log that is damaged as the store is opened, and of a part that the first statement meets.
    ensures meets { words.now ≡ run_words → S.tells → W.tells → length (S.left source.old) ≤ MAX_SCRIPT → MeetsNoFault (S.faults source.old) (S.faults source.new) (W.outside site.old) (W.outside site.new)
        → (line : List ℕ) → IsOpeningDamaged (bytes_in (W.outside site.old)) line ⊎ FirstMeets (bytes_in (W.outside site.old)) (requests_of (S.left source.old)) line
        → AnswersDamage result (W.outside site.old).said (W.outside site.new).said line }
{
    match read_words(words) {
        Ok(Some(Command::Run)) => run(alloc, source, site),
        Ok(None) => Status::BadWords,
        Err(_) => Status::NoMemory,
    }
}

// Pulls the script, and runs it.
fn run<S: Source, W: Site>(alloc: Global, source: &mut S, site: &mut W) -> Status
    ensures good_words { result ≢ Status.BadWords }
    ensures pulled { S.tells → PulledAs result (S.left source.old) (S.left source.new) }
    ensures untouched { LeavesSite result site.old site.new }
    ensures cause { IsCausedBy result (S.faults source.old) (S.faults source.new) (W.outside site.old) (W.outside site.new) }
    ensures complete { S.tells → length (S.left source.old) ≤ MAX_SCRIPT → MeetsNoFault (S.faults source.old) (S.faults source.new) (W.outside site.old) (W.outside site.new) → EndsWithoutFault result }
    ensures ended { S.tells → W.tells → (history : History) → Settles (W.outside site.old).files history
        → IfEnded result (EndsAt (requests_of (S.left source.old)) history (W.outside site.old) (W.outside site.new)) }
    ensures refused { S.tells → W.tells → IfEnded result (λ refused. (kept : Kept) → HasKept (bytes_in (W.outside site.old)) kept → Refuses (requests_of (S.left source.old)) kept refused) }
    ensures during { S.tells → W.tells → (history : History) → Settles (W.outside site.old).files history → During (W.outside site.old) (W.outside site.new)
        (IsLeftWhole (requests_of (S.left source.old)) history (W.outside site.old).said) }
    ensures damaged { W.tells → result ≡ Status.Damaged → SaysDamage (W.outside site.old) (W.outside site.new) }
    ensures undamaged { W.tells → (history : History) → Settles (W.outside site.old).files history → result ≢ Status.Damaged }
    ensures meets { S.tells → W.tells → length (S.left source.old) ≤ MAX_SCRIPT → MeetsNoFault (S.faults source.old) (S.faults source.new) (W.outside site.old) (W.outside site.new)
        → (line : List ℕ) → IsOpeningDamaged (bytes_in (W.outside site.old)) line ⊎ FirstMeets (bytes_in (W.outside site.old)) (requests_of (S.left source.old)) line
        → AnswersDamage result (W.outside site.old).said (W.outside site.new).said line }
{
    match pull_script(alloc, source) {
        Ok(script) => match run_script(alloc, site, Bytes::from_vec(script)) {
            Ok(false) => Status::Done,
            Ok(true) => Status::SomeRefused,
            Err(RunFault::Disk) => Status::DiskFault,
            Err(RunFault::Say) => Status::SayFault,
            Err(RunFault::Damaged(_)) => Status::Damaged,
            Err(RunFault::NoMemory) => Status::NoMemory,
        },
        Err(PullFault::Failed) => Status::SourceFault,
        Err(PullFault::TooLong) => Status::TooLong,
        Err(PullFault::NoMemory) => Status::NoMemory,
    }
}
