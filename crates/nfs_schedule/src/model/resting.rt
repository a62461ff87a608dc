//! Whether an engine is at rest, by its two counts.

ghost use Rattle.std.specs.Prelude.{◌≡◌, ℕ, true};
ghost use Rattle.std.specs.Bool.{Decides};
ghost use Rattle.nfs_engine.specs.Engine.{CountsLocked};
ghost use Rattle.nfs_engine.specs.Running.{living_count};
ghost use Rattle.nfs_schedule.specs.Worlds.{IsAtRest};

use nfs_engine::Engine;

/// Whether no call is in progress and no address is counted as held. It looks at every slot.
pub fn is_at_rest(engine: &Engine) -> bool
    ensures counted { (locked : ℕ) × CountsLocked engine.now.shards locked ×
        Decides result ((living_count engine.now.book.living ≡ 0) × (locked ≡ 0)) }
    ensures rest { result ≡ true → IsAtRest engine.now }
{
    let living = engine.living();
    let locked = engine.locked();
    living == 0 && locked == 0
}
