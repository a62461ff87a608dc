//! What one file has of locks and share reservations (RFC 1813, appendix II), of requests that wait for a lock and of
//! grants that are not answered, as values: a change makes another value, which shares with the old one what stays, and
//! where memory for it is refused the old one is all that there is.
//!
//! Locks stand in pieces of at most `PIECE_LIMIT`, exclusive ones apart from shared ones, by their first offsets.
//! Neighbours of one owner and mode are one lock, and two neighbouring pieces have more than `PIECE_LIMIT` locks, so n
//! locks stand in at most 2 n / 129 + 1 pieces of a mode. Each piece is kept with the least first and the greatest
//! last offset of its locks. A look-up passes over the pieces that the range does not meet, by these two numbers
//! alone; what is in a shared lock's way is looked up among the exclusive ones alone. A change copies the list of
//! pieces, a count and two numbers for each, and of the locks those of the pieces in which one changes, and sometimes
//! of a neighbour, as counts of their owners.
//!
//! Requests stand in order of arrival, in batches of at most `BATCH_LIMIT`; two neighbouring batches have more than
//! that together. Each is kept with its number, its process and its first offset, by which most are told apart before
//! the request is looked at. One more copies the list of batches, a count for each, and at most one batch, as counts of
//! its requests.
//!
//! What waits is tried behind each change of the locks (`OneFile::set`, `clear`, `settle`), each request once, and
//! again only behind a grant that makes its owner's exclusive lock a shared one.
//!
//! Files with the same number modulo 64 share a `LockBucket`, in which those with the same number modulo 4,096 share a
//! part.
#![tactic(auto)]

mod batch;
mod bucket;
mod file;
mod files;
mod held;
mod iter;
mod list;
mod locked;
mod locks;
mod owner;
mod part;
mod piece;
mod range;
mod request;
mod requests;
mod settling;
mod shares;

pub use bucket::{LOCK_BUCKETS, LockBucket, bucket_index};
pub use file::{OneFile, Settled};
pub use files::LockedFiles;
pub use held::HeldLock;
pub use iter::Locks;
pub use locked::LockedFile;
pub use locks::LockTable;
pub use owner::LockOwner;
pub use range::LockRange;
pub use request::LockRequest;
pub use requests::{Going, RequestList, Requests};
pub use shares::{HeldShare, ShareTable};
