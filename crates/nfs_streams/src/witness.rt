//! Who sees how the records of a stream are answered.

use nfs_engine::Engine;
use nfs_schedule::Answer;

/// Who sees how each record of a stream is answered.
pub trait Witness {
    /// A record was answered so, or dropped with nothing to tell of it. This is the engine behind it.
    fn saw(&self, answer: &Option<Answer>, engine: &Engine);
}

/// Nobody sees it.
#[derive(Clone, Copy)]
pub struct Unseen;

impl Witness for Unseen {
    fn saw(&self, _answer: &Option<Answer>, _engine: &Engine) {}
}
