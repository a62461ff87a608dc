//! Shards as an engine opens with them.

ghost use Rattle.std.specs.Prelude.{◌≡◌, ℕ, OnOk, None, length, map};
ghost use Rattle.nfs_objects.specs.Values.{write_value};
ghost use Rattle.nfs_engine.specs.Engine.{AreNew, IsFilled, held_among};
ghost use Rattle.nfs_engine.specs.Shards.{Fills, hold_at};

use crate::shard::{Had, SHARDS, Shard, shard_index};
use nfs_objects::{Addr, Mode, Write};
use nfs_tables::Placing;
use std::alloc::{AllocError, Global};

/// Who holds an address while it gets what the engine opens with. No call is in progress then.
const OPENER: u64 = 0;

/// Sixteen shards in which nothing stands. Addresses are placed so.
pub(crate) fn new_shards(alloc: Global, placing: Placing) -> [Shard; SHARDS]
    ensures new { AreNew result 0 }
    ensures sixteen { length result ≡ SHARDS }
{
    [
        Shard::new(alloc, placing, 0),
        Shard::new(alloc, placing, 1),
        Shard::new(alloc, placing, 2),
        Shard::new(alloc, placing, 3),
        Shard::new(alloc, placing, 4),
        Shard::new(alloc, placing, 5),
        Shard::new(alloc, placing, 6),
        Shard::new(alloc, placing, 7),
        Shard::new(alloc, placing, 8),
        Shard::new(alloc, placing, 9),
        Shard::new(alloc, placing, 10),
        Shard::new(alloc, placing, 11),
        Shard::new(alloc, placing, 12),
        Shard::new(alloc, placing, 13),
        Shard::new(alloc, placing, 14),
        Shard::new(alloc, placing, 15),
    ]
}

/// Makes these writes in shards of which nobody holds anything.
pub(crate) fn open_all(
    shards: &mut [Shard; SHARDS],
    alloc: Global,
    writes: Vec<Write>,
) -> Result<(), AllocError>
    requires { (a : Addr) (j : ℕ) → held_among shards.old a j ≡ None }
    ensures { OnOk result (IsFilled shards.old shards.new (map write_value writes.items)) }
{
    let mut writes = writes.into_iter();
    'writes: while let Some(write) = writes.next() {
        let index = shard_index(write.address);
        open(&mut shards[index], alloc, write)?;
    }
    Ok(())
}

/// Makes a write in a shard, at an address that nobody holds: it is held for that.
fn open(shard: &mut Shard, alloc: Global, write: Write) -> Result<(), AllocError>
    requires { (j : ℕ) → hold_at shard.old write.address j ≡ None }
    ensures { OnOk result (Fills shard.old shard.new (write_value write).0 (write_value write).1) }
{
    match shard.acquire(alloc, write.address, Mode::Exclusive, OPENER)? {
        Had::Yes(_) => {
            shard.fill(write.address, write.object);
            shard.release(write.address, OPENER);
            Ok(())
        }
        Had::Taken(_) => unreachable!(),
    }
}
