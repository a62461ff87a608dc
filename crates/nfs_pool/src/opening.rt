//! What a pool opens with: marks of what stands at the start, and each shard under a lock of its own.

ghost use Rattle.std.specs.Prelude.{◌≡◌, IfSome, map};
ghost use Rattle.nfs_objects.specs.Values.{write_value};
ghost use Rattle.nfs_objects.specs.declared.address.Addr.TheVariants.{Exports, Mounts};
ghost use Rattle.nfs_engine.specs.Book.{store_in};
ghost use Rattle.nfs_engine.specs.Engine.{shard_among};
ghost use Rattle.nfs_stamps.specs.Marking.{AreMarks, Puts};
ghost use Rattle.nfs_pool.specs.Marked.{AreMarksIn, IsSameIn, OpensMarked};

use crate::locking::LockedShard;
use crate::marked_shard::MarkedShard;
use nfs_engine::{Book, SHARDS, Shard};
use nfs_objects::{Addr, Write};
use nfs_stamps::{Log, Marks, Naming, Stamp, is_large};
use nfs_tables::Placing;
use std::alloc::Global;
use std::sync::Arc;

/// Marks of the exports and of the mounts, for the book and for the shard in which they stand: until they are written
/// no commit puts any.
pub(crate) fn mark_opening<L: Naming>(
    alloc: Global,
    log: &Log<L>,
    book: &Book,
    first: &Shard,
) -> (Marks<L>, Marks<L>)
    requires { IsSameIn (store_in book.now) first.now Exports × IsSameIn (store_in book.now) first.now Mounts }
    ensures book { AreMarks result.0 (store_in book.now).at }
    ensures shard { AreMarksIn result.1 first.now }
{
    // Both have what stands there.
    let _ = first;
    let exports = stamp_standing(log, book, Addr::Exports);
    let mounts = stamp_standing(log, book, Addr::Mounts);
    let placing = book.placing();
    (
        opening_marks(alloc, placing, &exports, &mounts),
        opening_marks(alloc, placing, &exports, &mounts),
    )
}

/// Marks of the exports and of the mounts with these stamps.
fn opening_marks<L: Naming>(
    alloc: Global,
    placing: Placing,
    exports: &Option<Stamp<L>>,
    mounts: &Option<Stamp<L>>,
) -> Marks<L>
    ensures { OpensMarked result exports.now mounts.now }
{
    let mut marks = Marks::new(alloc, placing);
    marks.set(Addr::Exports, exports.as_ref());
    marks.set(Addr::Mounts, mounts.as_ref());
    marks
}

/// A stamp of what stands at an address of a book.
fn stamp_standing<L: Naming>(log: &Log<L>, book: &Book, address: Addr) -> Option<Stamp<L>>
    ensures { IfSome result (λ s. Puts s address ((store_in book.now).at address)) }
{
    let object = Arc::try_clone(book.find(address)?).ok()?;
    let write = Write {
        address,
        object: Some(object),
    };
    Stamp::new(log, &[write])
}

/// A stamp of these writes, if one of them puts something large.
pub(crate) fn stamp_for<L: Naming>(log: &Log<L>, writes: &[Write]) -> Option<Stamp<L>>
    ensures { IfSome result (λ s. s ≡ map write_value writes.now) }
{
    for write in writes {
        if is_large(write.address) {
            return Stamp::new(log, writes);
        }
    }
    None
}

/// Each shard under a lock of its own, the first with these marks. Addresses are placed so.
pub(crate) fn lock_all<L: Naming>(
    alloc: Global,
    placing: Placing,
    shards: [Shard; SHARDS],
    first: Marks<L>,
) -> [LockedShard<L>; SHARDS]
    requires { AreMarksIn first (shard_among shards 0) }
{
    let [a, b, c, d, e, f, g, h, i, j, k, l, m, n, o, p] = shards;
    [
        LockedShard::new(MarkedShard::new(a, first)),
        unmarked(alloc, placing, b),
        unmarked(alloc, placing, c),
        unmarked(alloc, placing, d),
        unmarked(alloc, placing, e),
        unmarked(alloc, placing, f),
        unmarked(alloc, placing, g),
        unmarked(alloc, placing, h),
        unmarked(alloc, placing, i),
        unmarked(alloc, placing, j),
        unmarked(alloc, placing, k),
        unmarked(alloc, placing, l),
        unmarked(alloc, placing, m),
        unmarked(alloc, placing, n),
        unmarked(alloc, placing, o),
        unmarked(alloc, placing, p),
    ]
}

/// A shard without marks under a lock of its own.
fn unmarked<L: Naming>(alloc: Global, placing: Placing, shard: Shard) -> LockedShard<L> {
    LockedShard::new(MarkedShard::new(shard, Marks::new(alloc, placing)))
}
