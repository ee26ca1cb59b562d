// The ids of blocks behind views.
ghost use Rattle.std.specs.Prelude.{◌≡◌, ◌<◌, ◌^◌, ◌++◌, ◌∷◌, [], ℕ, List, length};
ghost use Rattle.chv_sip.specs.Below.{AreFed, IsGiven};
ghost use Rattle.chv_sip.specs.BlockIds.{path_id};
ghost use Rattle.chv_sip.specs.declared.block_id.BlockId.{BlockId};

use crate::block_id::{BlockId, FIRST_KEY, SECOND_KEY};
use crate::sip::Sip;

// The first byte of a key that is a path along views.
const PATH: u8 = 3;

/// The id of a block behind views: `new`, a `name` for each view of the path in its order, and `finish`.
#[derive(Clone, Copy)]
pub struct Below {
    first: Sip,
    second: Sip,
}

impl Below {
    /// No name is given yet, of so many views that a block runs down from where it was inserted.
    pub fn new(source: BlockId, views: u32) -> Below
        ensures { IsGiven source views [] result }
    {
        let mut below = Below::begun();
        below.feed(&[PATH]);
        below.feed(&source.first.to_le_bytes());
        below.feed(&source.second.to_le_bytes());
        below.feed(&views.to_le_bytes());
        below
    }

    /// Takes the name of the next view.
    pub fn name(&mut self, name: &[u8])
        requires short { length name.now < 2 ^ 32 }
        ensures { (source : BlockId) (views : ℕ) (names : List (List ℕ)) → IsGiven source views names self.old → IsGiven source views (names ++ name.now ∷ []) self.new }
    {
        self.feed(&(name.len() as u32).to_le_bytes());
        self.feed(name);
    }

    /// The id, once all names are given.
    pub fn finish(&self) -> BlockId
        ensures { (source : BlockId) (names : List (List ℕ)) → IsGiven source (length names) names self.now → result ≡ path_id source names }
    {
        BlockId {
            first: self.first.finish(),
            second: self.second.finish(),
        }
    }

    // Nothing was fed.
    fn begun() -> Below
        ensures { AreFed [] result }
    {
        Below {
            first: Sip::new(FIRST_KEY.k0, FIRST_KEY.k1),
            second: Sip::new(SECOND_KEY.k0, SECOND_KEY.k1),
        }
    }

    // Feeds both hashes.
    fn feed(&mut self, bytes: &[u8])
        ensures { (fed : List ℕ) → AreFed fed self.old → AreFed (fed ++ bytes.now) self.new }
    {
        self.first.feed(bytes);
        self.second.feed(bytes);
    }
}
