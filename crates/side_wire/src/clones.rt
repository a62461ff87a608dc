//! Copies of callbacks, which share their byte strings. Each copy is equal to what it is a copy of.

ghost use Rattle.std.specs.Prelude.{◌≡◌};

use crate::message::Callback;
use crate::nlm::TestStatus;
use std::alloc::AllocError;

impl Clone for TestStatus {
    ghost is_clone = { λ status copy. copy ≡ status };

    fn clone(&self) -> Result<TestStatus, AllocError> {
        Ok(match self {
            TestStatus::Granted => TestStatus::Granted,
            TestStatus::Denied(holder) => TestStatus::Denied(holder.clone()?),
            TestStatus::DeniedNoLocks => TestStatus::DeniedNoLocks,
            TestStatus::Blocked => TestStatus::Blocked,
            TestStatus::DeniedGracePeriod => TestStatus::DeniedGracePeriod,
            TestStatus::Deadlock => TestStatus::Deadlock,
            TestStatus::ReadOnly => TestStatus::ReadOnly,
            TestStatus::StaleHandle => TestStatus::StaleHandle,
            TestStatus::FileTooBig => TestStatus::FileTooBig,
            TestStatus::Failed => TestStatus::Failed,
        })
    }
}

impl Clone for Callback {
    ghost is_clone = { λ call copy. copy ≡ call };

    fn clone(&self) -> Result<Callback, AllocError> {
        Ok(match self {
            Callback::Granted(arguments) => Callback::Granted(arguments.clone()?),
            Callback::GrantedMsg(arguments) => Callback::GrantedMsg(arguments.clone()?),
            Callback::TestRes(result) => Callback::TestRes(result.clone()?),
            Callback::LockRes(result) => Callback::LockRes(result.clone()?),
            Callback::CancelRes(result) => Callback::CancelRes(result.clone()?),
            Callback::UnlockRes(result) => Callback::UnlockRes(result.clone()?),
            Callback::GrantedRes(result) => Callback::GrantedRes(result.clone()?),
        })
    }
}
