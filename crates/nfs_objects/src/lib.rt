//! The objects of the store, what a call has seen of them, and what it comes to.
//!
//! A store is a map from addresses to objects, and stands for one state of the machine of `nfs_machine`. A call runs on
//! a `Draft`: the `View`, which is the part of the store that it has read, and the writes that it would make. It comes
//! to a `Change`, or halts with addresses or numbers that it needs first. What a change promises (`IsPromised`): in
//! every sound store that the view fits, its reply, messages and writes are one step of the machine, which leaves the
//! store sound.
#![tactic(auto)]

mod address;
pub mod bits;
pub mod block;
mod change;
mod counts;
mod directory;
mod draft;
mod entry_map;
mod entry_page;
mod exports;
mod file_map;
pub mod hashing;
pub mod laws;
pub mod modes;
mod mounts;
pub mod object;
mod outcomes;
mod page_list;
pub mod usage;
mod view;

pub use address::Addr;
pub use bits::Bits;
pub use block::{BLOCK_SIZE, MAP_BLOCKS};
pub use change::{Change, Missing, Outcome, Wish, Write};
pub use counts::NameCounts;
pub use directory::{Directory, Entries, Leaf};
pub use draft::Draft;
pub use entry_map::{EntryMap, NamePlace};
pub use entry_page::{EntryPage, NamedLeaf, PAGE_COOKIES};
pub use exports::{ExportTable, LivingExport};
pub use file_map::FileMap;
pub use hashing::BUCKETS;
pub use modes::{CHANGING, LOCKING, MOUNTING, Mode, Modes, READING, REPLACING};
pub use mounts::{Leaving, MOUNT_LIMIT, Mount, MountTable, Mounts};
pub use nfs_machine::Handle;
pub use object::{Content, DIRECTORY_SIZE, Inode, Object};
pub use outcomes::outcome;
pub use page_list::{PageList, PageRun};
pub use usage::{GROUPS, Usage};
pub use view::{Entry, Reserved, RoomyView, View, share};
