//! Commits: what one frame of a table's log says, and what they say together.
#![tactic(auto)]

mod commit;
mod laws;
mod layout;
mod part_row;
mod reading;
mod replay;
mod spelling;

pub use commit::{Commit, Ids};
pub use laws::{law_commit_is_taken, law_commit_reads_back, law_log_is_short, law_replay_is_sound};
pub use layout::greatest_level;
pub use part_row::PartRow;
pub use reading::read_commit;
pub use replay::{MAX_ENTRIES, Replay};
pub use spelling::{frame_of_merge, frame_of_one, spell};
