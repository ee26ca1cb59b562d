// What holds of all histories, as laws on the definitions.
ghost use Rattle.std.specs.Prelude.{◌≡◌, ◌⊎◌, ◌+◌, ◌≤◌, ◌∷◌, ◌++◌, Bool, List, [], None, Some, ℕ, length};
ghost use Rattle.std.specs.List.{All, Contains};
ghost use Rattle.chv_catalog.specs.declared.table_def.TableDef.{TableDef};
ghost use Rattle.chv_query.specs.Accepted.{IsSchema};
ghost use Rattle.chv_query.specs.Arrivals.{Contribution};
ghost use Rattle.chv_query.specs.Plans.{Delivery};
ghost use Rattle.chv_site.specs.Images.{Image};
ghost use Rattle.chv_history.specs.Acknowledged.{IsAcknowledged, IsHeld, IsWhole, IsWholeInBooks, AreApart, SameTokenSameBlock, IdsNameOne};
ghost use Rattle.chv_history.specs.Crashes.{IsLeftBy};
ghost use Rattle.chv_history.specs.Events.{Event, Replied, Plan, Moment, begins, behind};
ghost use Rattle.chv_history.specs.Histories.{History, IsLawful};
ghost use Rattle.chv_history.specs.Kept.{Kept, IsKeptOf, Refuses, kept_behind};
ghost use Rattle.chv_history.specs.KeptTurns.{RunRefuses, TurnsRefuse, kept_turns, left_turns};
ghost use Rattle.chv_history.specs.Lives.{GainsFew, IsAbsent, IsLife, LifeRun, StandsOnce, StandsOnceAtMost, history_behind, life_events};
ghost use Rattle.chv_history.specs.Machine.{Turn, Of, Control, act_control, act_events, first_with_work, turns_control, turns_events};
ghost use Rattle.chv_history.specs.Runs.{run_events};
ghost use Rattle.chv_history.specs.Script.{Request, AreFormed, requests_of};
ghost use Rattle.chv_history.specs.Spaced.{AreSpaced, ContributionsAreSpaced};
ghost use Rattle.chv_history.specs.Traces.{IsRest, IsTrace, control_in};

/// An insert whose reply was said to its end is acknowledged at the moment that a crash leaves, or its reply,
/// which changes no history, is the very next event.
pub fn law_acknowledged()
    ensures { (events : List Event) (before : List ℕ) (first : Moment) (image : Image) (text : List ℕ) (left : IsLeftBy events before first image text)
        (xs ys : List Event) (line : List ℕ) (plans : List Plan) (refuses : Bool) → events ≡ xs ++ Replied line plans refuses ∷ ys
        → 1 ≤ length line → length (before ++ (behind xs first).said) + length line ≤ length text
        → IsAcknowledged plans (behind left.done first) ⊎ (left.left ≡ Replied line plans refuses ∷ ys) }
{}

/// A run of a script with a list of turns has one list of events: those of its turns, and then, while some client has something
/// to do, those of the first that has. With no turns listed they are those of its requests, which are answered one after the other,
/// client by client.
///
/// So the events of each run are those of a list of turns, and what is said of all lists of turns is said of it.
pub fn law_trace()
    ensures unique { (turns : List Turn) (m : Moment) (control : Control) (a b : List Event) → IsRest turns m control a → IsRest turns m control b → a ≡ b }
    ensures exists { (turns : List Turn) (m : Moment) (control : Control) → (events : List Event) × IsRest turns m control events }
    ensures listed { (turn : Turn) (turns : List Turn) (m : Moment) (control : Control) (later : List Event)
        → IsRest turns (behind (act_events turn m.history control) m) (act_control turn m.history control) later
        → IsRest (turn ∷ turns) m control (act_events turn m.history control ++ later) }
    ensures next { (client : ℕ) (m : Moment) (control : Control) (later : List Event) → first_with_work control ≡ Some client
        → IsRest [] (behind (act_events (Of client) m.history control) m) (act_control (Of client) m.history control) later
        → IsRest [] m control (act_events (Of client) m.history control ++ later) }
    ensures ends { (m : Moment) (control : Control) → first_with_work control ≡ None → IsRest [] m control [] }
    ensures in_order { (script : List ℕ) (history : History) → IsTrace script [] history (run_events (requests_of script) (begins history)) }
{}

/// At each moment of a run over a schema the history holds every insert that the run has acknowledged: each of its deliveries has
/// an entry with its id.
pub fn law_held()
    ensures requests { (requests : List Request) (history : History) (done left : List Event) → IsSchema history.schema → run_events requests (begins history) ≡ done ++ left
        → All (IsHeld (behind done (begins history)).history) (behind done (begins history)).acknowledged }
    ensures turns { (script : List ℕ) (turns : List Turn) (history : History) (done left : List Event) → IsSchema history.schema
        → turns_events turns (begins history) (control_in script) ≡ done ++ left
        → All (IsHeld (behind done (begins history)).history) (behind done (begins history)).acknowledged }
{}

/// Every insert that a run over a schema has acknowledged stands whole: its entries, where ids name one; its blocks and what they
/// go by, where what goes by different things has different ids and one token and number is that of one block.
pub fn law_whole()
    ensures entries { (requests : List Request) (history : History) (done left : List Event) → IsSchema history.schema → run_events requests (begins history) ≡ done ++ left
        → IdsNameOne (behind done (begins history))
        → All (IsWholeInBooks (behind done (begins history)).history) (behind done (begins history)).acknowledged }
    ensures blocks { (requests : List Request) (history : History) (done left : List Event) → IsLawful history → AreFormed requests
        → run_events requests (begins history) ≡ done ++ left → AreApart history done → SameTokenSameBlock history done
        → All (IsWhole (behind done (begins history)).history) (behind done (begins history)).acknowledged }
    ensures turns { (script : List ℕ) (turns : List Turn) (history : History) (done left : List Event) → IsLawful history
        → turns_events turns (begins history) (control_in script) ≡ done ++ left → AreApart history done → SameTokenSameBlock history done
        → All (IsWhole (behind done (begins history)).history) (behind done (begins history)).acknowledged }
{}

/// Behind any events of a spaced history each one is spaced: no block stands twice within its table's window. And behind the
/// events of a run of a lawful one each is lawful, and no contribution stands twice within a window.
pub fn law_spaced()
    ensures spaced { (events : List Event) (first : Moment) → AreSpaced first.history → AreSpaced (behind events first).history }
    ensures lawful { (requests : List Request) (history : History) (done left : List Event) → IsLawful history → AreFormed requests
        → run_events requests (begins history) ≡ done ++ left → IsLawful (behind done (begins history)).history }
    ensures contributions { (requests : List Request) (history : History) (done left : List Event) → IsLawful history → AreFormed requests
        → run_events requests (begins history) ≡ done ++ left → ContributionsAreSpaced (behind done (begins history)).history }
    ensures turns { (script : List ℕ) (turns : List Turn) (history : History) (done left : List Event) → IsLawful history
        → turns_events turns (begins history) (control_in script) ≡ done ++ left
        → IsLawful (behind done (begins history)).history × ContributionsAreSpaced (behind done (begins history)).history }
{}

/// Over a life of runs with turns, in which each may end early: where a contribution is absent from a table at some moment, and the table has
/// gained no more entries at the end than its window has ids, and one, it stands there once at most. Where what goes by different
/// things has different ids and one token and number is that of one block, what is acknowledged stands whole, and there once.
pub fn law_retry()
    ensures once_at_most { (history : History) (runs : List LifeRun) (earlier later : List Event) (place : ℕ) (def : TableDef) → IsLife history runs
        → life_events runs ≡ earlier ++ later → GainsFew (history_behind history earlier) (history_behind history (life_events runs)) place def
        → (contribution : Contribution) → IsAbsent contribution ((history_behind history earlier).arrivals (place + 1))
        → StandsOnceAtMost contribution ((history_behind history (life_events runs)).arrivals (place + 1)) }
    ensures whole { (history : History) (runs : List LifeRun) → IsLife history runs → AreApart history (life_events runs)
        → SameTokenSameBlock history (life_events runs)
        → All (IsWhole (history_behind history (life_events runs))) (behind (life_events runs) (begins history)).acknowledged }
    ensures once { (history : History) (runs : List LifeRun) (earlier later : List Event) (place : ℕ) (def : TableDef) → IsLife history runs
        → life_events runs ≡ earlier ++ later → GainsFew (history_behind history earlier) (history_behind history (life_events runs)) place def
        → AreApart history (life_events runs) → SameTokenSameBlock history (life_events runs) → (plan : Plan) (delivery : Delivery)
        → Contains (behind (life_events runs) (begins history)).acknowledged plan → Contains plan delivery → delivery.table ≡ place + 1
        → IsAbsent delivery.entry.contribution ((history_behind history earlier).arrivals (place + 1))
        → StandsOnce delivery.entry ((history_behind history (life_events runs)).arrivals (place + 1)) }
{}

/// Where what is held is that of a history over a schema, it stays so in a run, which refuses a statement as what is held says.
pub fn law_kept()
    ensures requests { (requests : List Request) (kept : Kept) (history : History) → IsSchema history.schema → IsKeptOf kept history
        → IsKeptOf (kept_behind requests kept) (behind (run_events requests (begins history)) (begins history)).history
        × Refuses requests kept (behind (run_events requests (begins history)) (begins history)).refused }
    ensures turns { (script : List ℕ) (turns : List Turn) (kept : Kept) (history : History) → IsSchema history.schema → IsKeptOf kept history
        → (left_turns turns kept (control_in script) ≡ turns_control turns (begins history) (control_in script))
        × IsKeptOf (kept_turns turns kept (control_in script)) (behind (turns_events turns (begins history) (control_in script)) (begins history)).history
        × TurnsRefuse turns kept (control_in script) (behind (turns_events turns (begins history) (control_in script)) (begins history)).refused }
    ensures run { (script : List ℕ) (turns : List Turn) (kept : Kept) (history : History) (events : List Event) → IsSchema history.schema → IsKeptOf kept history
        → IsTrace script turns history events → RunRefuses script turns kept (behind events (begins history)).refused }
{}
