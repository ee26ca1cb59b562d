// Laws of commits.
ghost use Rattle.std.specs.Prelude.{◌≡◌, ◌+◌, ◌*◌, ◌≤◌, ℕ, List, length, Some};
ghost use Rattle.std.specs.List.{All};
ghost use Rattle.chv_commit.specs.Commits.{commit_spelling, IsCommit};
ghost use Rattle.chv_commit.specs.Replays.{State, Takes, no_state, taken, replayed, IsSound};
ghost use Rattle.chv_commit.specs.declared.commit.Commit.{Commit as Seen};

/// A payload is that of one commit at most.
pub fn law_commit_reads_back()
    ensures { (a b : Seen) → IsCommit a → IsCommit b → commit_spelling a ≡ commit_spelling b → a ≡ b }
{}

/// A commit that is taken fits, and behind it the log says what it tells; and in a log whose commits fit, each that fits is
/// taken.
pub fn law_commit_is_taken()
    ensures fits { (window : ℕ) (old new : State) (commit : Seen) → taken window old commit ≡ Some new → Takes window old commit new }
    ensures taken { (window : ℕ) (old new : State) (commit : Seen) → IsSound old → Takes window old commit new → taken window old commit ≡ Some new }
{}

/// Wherever commits fit one behind the other, the live parts cut the entries into runs, and have numbers of their own below
/// the next one.
pub fn law_replay_is_sound()
    ensures { (window : ℕ) (commits : List Seen) (state : State) → replayed window no_state commits ≡ Some state → IsSound state }
{}

/// A log is short: each frame, of the payload and 5 bytes, is paid for by 88 bytes for each new entry, of which each live part
/// still has 46.
pub fn law_log_is_short()
    ensures { (window : ℕ) (old new : State) (commit : Seen) → IsCommit commit → taken window old commit ≡ Some new
        → length (commit_spelling commit) + 5 + 46 * length new.layout + 88 * old.entries ≤ 88 * new.entries + 46 * length old.layout }
{}
