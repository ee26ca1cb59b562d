// What a table's log says, commit by commit.
ghost use Rattle.std.specs.List.{Contains};
ghost use Rattle.std.specs.Prelude.{◌≡◌, ◌↔◌, ◌+◌, ◌*◌, ◌<◌, ◌≤◌, ◌^◌, ◌∷◌, [], false, length, if◌then◌else◌, None, Some, IfOk, IsTrue, OnOk, OnErr};
ghost use Rattle.chv_commit.specs.Replays.{MAX_ENTRIES, no_state, add_fits, added, merge_of, taken};
ghost use Rattle.chv_commit.specs.declared.commit.Commit.TheVariants.{Add};

use crate::layout::join;
use crate::{Commit, Ids, PartRow};
use chv_sip::BlockId;
use circular_buffer::HeapCircularBuffer;
use std::alloc::{AllocError, Global};
use std::marker::Model;

/// The most entries that a table has.
pub const MAX_ENTRIES: u64 = 1 << 40;

/// The number of a table's first part. Smaller numbers of its files belong to its logs.
const FIRST_PART: u64 = 8;

/// What the commits of a table's log say, as far as they were taken.
#[derive(Debug, Drop)]
pub struct Replay {
    layout: Vec<PartRow>,
    entries: u64,
    next_part: u64,
    // The ids of the last entries, the oldest first.
    ids: HeapCircularBuffer<BlockId>,
}

impl Model for Replay {
    ghost use Rattle.std.specs.Prelude.{◌+◌, ◌-◌, ◌*◌, ◌≤◌, length};
    ghost use Rattle.std.specs.Vec.{vec_capacity, vec_len};
    ghost use Rattle.chv_commit.specs.Replays.{Seen, MAX_ENTRIES};

    ghost Value = { Seen };

    ghost view = { λ r. record { window = r.ids.capacity; state = record { layout = r.layout.items; entries = r.entries; next_part = r.next_part; ids = r.ids.items }; spare = vec_capacity r.layout - vec_len r.layout } };

    // Each entry pays for the number of the part that it comes with, and for that part's place in the layout. Parts that
    // become one give back a place at least, which pays for the number that they take.
    ghost invariant = { λ r. (r.next_part + length r.layout.items ≤ 8 + 2 * r.entries) × (r.entries ≤ MAX_ENTRIES) };
}

impl Replay {
    /// No commit was taken. Of the entries' ids so many are kept, for which all memory is taken now.
    pub fn new(alloc: Global, window: u32) -> Result<Replay, AllocError>
        ensures { IfOk result (λ replay. (replay.window ≡ window) × (replay.state ≡ no_state)) }
    {
        Ok(Replay {
            layout: Vec::new(alloc),
            entries: 0,
            next_part: FIRST_PART,
            ids: HeapCircularBuffer::with_capacity(alloc, window as usize)?,
        })
    }

    /// Takes the next commit of the log. It answers false exactly where the commit does not fit, and then nothing changed.
    pub fn take(&mut self, commit: &Commit) -> Result<bool, AllocError>
        ensures taken { IfOk result (λ fits. taken self.old.window self.old.state commit.now ≡ (if fits then Some self.new.state else None)) }
        ensures kept { IfOk result (λ fits. fits ≡ false → self.new ≡ self.old) }
        ensures window { self.new.window ≡ self.old.window }
        ensures err { OnErr result (self.new ≡ self.old) }
    {
        match commit {
            Commit::Add { part, rows, ids } => self.take_add(*part, *rows, ids.as_slice()),
            Commit::Merge {
                lo,
                hi,
                part,
                level,
                rows,
            } => Ok(self.take_merge(PartRow {
                lo: *lo,
                hi: *hi,
                level: *level,
                part: *part,
                rows: *rows,
            })),
        }
    }

    /// Makes room in memory for so many entries. After an `Err` the replay may be used as before.
    pub fn reserve(&mut self, count: usize) -> Result<(), AllocError>
        ensures room { OnOk result (count ≤ self.new.spare) }
        ensures kept { self.old.spare ≤ self.new.spare }
        ensures same { (self.new.window ≡ self.old.window) × (self.new.state ≡ self.old.state) }
    {
        self.layout.reserve(count)
    }

    /// Takes one new entry, with the next part, which holds so many rows. It takes no memory.
    pub fn take_one(&mut self, rows: u64, id: BlockId)
        requires room { 1 ≤ self.old.spare }
        requires entries { self.old.state.entries < MAX_ENTRIES }
        ensures state { self.new.state ≡ added self.old.window self.old.state.next_part rows (id ∷ []) self.old.state }
        ensures window { self.new.window ≡ self.old.window }
        ensures spare { self.old.spare ≤ self.new.spare + 1 }
    {
        self.put(rows, &[id]);
    }

    /// Takes parts that become this one. It answers false exactly where they do not fit, and then nothing changed. It takes no
    /// memory.
    pub fn take_merge(&mut self, row: PartRow) -> bool
        ensures taken { taken self.old.window self.old.state (merge_of row) ≡ (if result then Some self.new.state else None) }
        ensures kept { result ≡ false → self.new ≡ self.old }
        ensures window { self.new.window ≡ self.old.window }
        ensures spare { self.old.spare ≤ self.new.spare }
    {
        if row.part != self.next_part || !join(&mut self.layout, row) {
            return false;
        }
        self.next_part += 1;
        true
    }

    // Takes new entries.
    fn take_add(&mut self, part: u64, rows: u64, ids: &[BlockId]) -> Result<bool, AllocError>
        ensures taken { IfOk result (λ fits. taken self.old.window self.old.state (Add part rows ids.now) ≡ (if fits then Some self.new.state else None)) }
        ensures kept { IfOk result (λ fits. fits ≡ false → self.new ≡ self.old) }
        ensures window { self.new.window ≡ self.old.window }
        ensures err { OnErr result (self.new ≡ self.old) }
    {
        let count = ids.len() as u64;
        if part != self.next_part || count == 0 || count > MAX_ENTRIES - self.entries {
            return Ok(false);
        }
        self.layout.reserve(1)?;
        self.put(rows, ids);
        Ok(true)
    }

    // Puts new entries behind the others, with the next part, for which there is room.
    fn put(&mut self, rows: u64, ids: &[BlockId])
        requires room { 1 ≤ self.old.spare }
        requires some { 1 ≤ length ids.now }
        requires entries { self.old.state.entries + length ids.now ≤ MAX_ENTRIES }
        ensures state { self.new.state ≡ added self.old.window self.old.state.next_part rows ids.now self.old.state }
        ensures window { self.new.window ≡ self.old.window }
        ensures spare { self.old.spare ≤ self.new.spare + 1 }
    {
        let count = ids.len() as u64;
        self.layout.push_reserved(PartRow {
            lo: self.entries + 1,
            hi: self.entries + count,
            level: 0,
            part: self.next_part,
            rows,
        });
        self.entries += count;
        self.next_part += 1;
        self.ids.extend_from_slice(ids);
    }

    /// The live parts in order, each behind the entries of the one before.
    pub fn layout(&self) -> &[PartRow]
        ensures { result.now ≡ self.now.state.layout }
    {
        self.layout.as_slice()
    }

    /// The live parts in order. It takes no memory.
    pub fn into_layout(self) -> Vec<PartRow>
        ensures { result.items ≡ self.state.layout }
    {
        let Replay { layout, .. } = self;
        layout
    }

    /// How many entries there are.
    pub fn entries(&self) -> u64
        ensures entries { result ≡ self.now.state.entries }
        ensures most { result ≤ MAX_ENTRIES }
    {
        self.entries
    }

    /// The number of the next part.
    pub fn next_part(&self) -> u64
        ensures next { result ≡ self.now.state.next_part }
        ensures most { result + length self.now.state.layout ≤ 8 + 2 * self.now.state.entries }
    {
        self.next_part
    }

    /// Whether an id is among those of the last entries.
    pub fn has(&self, id: BlockId) -> bool
        ensures { IsTrue result ↔ Contains self.now.state.ids id }
    {
        self.ids.iter().any(|held| *held == id)
    }

    /// The ids of the last entries, the oldest first.
    pub fn ids(&self, alloc: Global) -> Result<Ids, AllocError>
        ensures { IfOk result (λ ids. ids ≡ self.now.state.ids) }
    {
        Ok(Ids::from_vec(self.ids.to_vec(alloc)?))
    }
}
