//! The timestamps that came.
ghost use Rattle.std.specs.Prelude.{◌≡◌, ◌<◌, ◌∷◌, ◌++◌, ◌^◌, [], ℕ, if◌then◌else◌, length, map, not, replicate, IfOk, OnErr, OnOk};
ghost use Rattle.hybrid_clock.specs.declared.stamp.Stamp.{Stamp as AnyStamp};
ghost use Rattle.hybrid_clock.specs.Stamp.{IsStamp};
ghost use Rattle.field_merge.specs.Latest.{is_among};
ghost use Rattle.field_merge.specs.Stamps.{bucket_of as bucket_in, stamp_hash, stamp_of, IsStored};

use field_values::NoMemory;
use hybrid_clock::{Node, Stamp};
use std::alloc::Global;
use std::hash::{FoldHasher, Hash, Hasher};
use std::marker::Model;

/// A timestamp that came, in 28 bytes, where a `Stamp` takes 32.
#[derive(Clone, Copy)]
struct Kept {
    /// The whole minutes since 1970.
    minute: u32,
    /// The milliseconds of the minute.
    millis: u16,
    counter: u16,
    node: Node,
    /// One past the place of the one of its bucket that came before it, or 0 where none did.
    before: u32,
}

/// The timestamps that came, each once.
///
/// They stand in the order in which they came, by their hashes in buckets. A bucket knows its last one, and each one that
/// before it in its bucket. So a look-up for one that did not come mostly misses the cache once, at the bucket.
#[derive(Drop)]
pub(crate) struct Stamps {
    alloc: Global,
    /// Of each bucket one past the place of its last one, or 0 where it has none.
    heads: Vec<u32>,
    kept: Vec<Kept>,
}

/// The milliseconds of a minute.
const MINUTE: u64 = 60_000;

/// There are so many buckets at first.
const FIRST_BUCKETS: usize = 1 << 12;

impl Model for Stamps {
    ghost use Rattle.std.specs.Prelude.{List, map};
    ghost use Rattle.hybrid_clock.specs.declared.stamp.Stamp.{Stamp as AnyStamp};
    ghost use Rattle.field_merge.specs.Stamps.{stamp_of, IsStored};

    ghost Value = { List AnyStamp };

    ghost view = { λ s. map stamp_of s.kept.items };

    ghost invariant = { λ s. IsStored s.heads.items s.kept.items };
}

impl Kept {
    fn stamp(&self) -> Stamp
        ensures { result ≡ stamp_of self.now }
    {
        Stamp {
            millis: self.minute as u64 * MINUTE + self.millis as u64,
            counter: self.counter,
            node: self.node,
        }
    }

    /// A timestamp, and what its bucket had.
    fn of(stamp: Stamp, before: u32) -> Kept
        requires { IsStamp stamp }
        ensures same { stamp_of result ≡ stamp }
        ensures before { result.before ≡ before }
    {
        Kept {
            minute: (stamp.millis / MINUTE) as u32,
            millis: (stamp.millis % MINUTE) as u16,
            counter: stamp.counter,
            node: stamp.node,
            before,
        }
    }
}

fn hash_of(stamp: &Stamp) -> u64
    ensures { result ≡ stamp_hash stamp.now }
{
    let mut hasher = FoldHasher::default();
    stamp.hash(&mut hasher);
    hasher.finish()
}

/// The bucket of a timestamp, where there are so many.
fn bucket_of(stamp: &Stamp, count: usize) -> usize
    requires { 0 < count }
    ensures is { result ≡ bucket_in count stamp.now }
    ensures within { result < count }
{
    hash_of(stamp) as usize & (count - 1)
}

/// Whether a timestamp of this bucket came.
fn has(heads: &[u32], kept: &[Kept], bucket: usize, stamp: &Stamp) -> bool
    requires stored { IsStored heads.now kept.now }
    requires within { bucket < length heads.now }
    requires bucket { bucket ≡ bucket_in (length heads.now) stamp.now }
    ensures { result ≡ is_among stamp.now (map stamp_of kept.now) }
{
    let mut at = heads[bucket] as usize;
    'back: while at > 0 {
        let last = &kept[at - 1];
        if *stamp == last.stamp() {
            return true;
        }
        at = last.before as usize;
    }
    false
}

/// Puts all timestamps into buckets that are empty.
fn link(heads: &mut [u32], kept: &mut [Kept])
    requires few { length kept.old < 2 ^ 32 }
    requires some { 0 < length heads.old }
    requires empty { heads.old ≡ replicate (length heads.old) 0 }
    ensures stored { IsStored heads.new kept.new }
    ensures same { map stamp_of kept.new ≡ map stamp_of kept.old }
{
    'links: for at in 0..kept.len() {
        let bucket = bucket_of(&kept[at].stamp(), heads.len());
        kept[at].before = heads[bucket];
        heads[bucket] = (at + 1) as u32;
    }
}

/// Makes more buckets where there are not more than timestamps.
fn make_room(alloc: Global, heads: &mut Vec<u32>, kept: &mut [Kept]) -> Result<(), NoMemory>
    requires { IsStored heads.old.items kept.old }
    ensures stored { IsStored heads.new.items kept.new }
    ensures same { map stamp_of kept.new ≡ map stamp_of kept.old }
    ensures room { OnOk result (0 < length heads.new.items) }
{
    if kept.len() < heads.len() {
        return Ok(());
    }
    let mut more = Vec::new(alloc);
    more.resize((2 * kept.len()).max(FIRST_BUCKETS), 0u32)?;
    link(&mut more, kept);
    *heads = more;
    Ok(())
}

/// Puts a timestamp into its bucket, as its last one.
fn append(
    heads: &mut [u32],
    kept: &mut Vec<Kept>,
    bucket: usize,
    stamp: Stamp,
) -> Result<(), NoMemory>
    requires valid { IsStamp stamp }
    requires stored { IsStored heads.old kept.old.items }
    requires within { bucket < length heads.old }
    requires bucket { bucket ≡ bucket_in (length heads.old) stamp }
    ensures stored { IsStored heads.new kept.new.items }
    ensures more { OnOk result (map stamp_of kept.new.items ≡ map stamp_of kept.old.items ++ stamp ∷ []) }
    ensures same { OnErr result (map stamp_of kept.new.items ≡ map stamp_of kept.old.items) }
{
    if kept.len() >= u32::MAX as usize {
        return Err(NoMemory);
    }
    kept.push(Kept::of(stamp, heads[bucket]))?;
    heads[bucket] = kept.len() as u32;
    Ok(())
}

impl Stamps {
    /// None came yet.
    pub(crate) fn new(alloc: Global) -> Stamps
        ensures { result ≡ [] }
    {
        Stamps {
            alloc,
            heads: Vec::new(alloc),
            kept: Vec::new(alloc),
        }
    }

    /// Takes one more unless it came before, and says whether it did not.
    pub(crate) fn insert(&mut self, stamp: Stamp) -> Result<bool, NoMemory>
        requires { IsStamp stamp }
        ensures fresh { IfOk result (λ fresh. fresh ≡ not (is_among stamp self.old)) }
        ensures kept { IfOk result (λ fresh. self.new ≡ (if fresh then self.old ++ stamp ∷ [] else self.old)) }
    {
        make_room(self.alloc, &mut self.heads, &mut self.kept)?;
        let bucket = bucket_of(&stamp, self.heads.len());
        if has(&self.heads, &self.kept, bucket, &stamp) {
            return Ok(false);
        }
        append(&mut self.heads, &mut self.kept, bucket, stamp)?;
        Ok(true)
    }
}
