//! Inodes and directories as the procedures see them: from a handle to its object, what is known of it, who may do what
//! with it, names, bytes, and changes of objects.
//!
//! A reader's contract is a fact of the state in every store that the draft's view fits; a maker's is what it does to
//! what the store stands for. Readers and makers halt where something has to be read first. What an object contains is
//! read and changed by `content` alone. No inode is shown above this crate.
#![tactic(auto)]

mod burying;
mod checks;
mod content;
mod data;
mod found;
mod gather;
mod kinds;
mod linking;
mod locks;
mod makers;
pub mod names;
mod new_objects;
mod permission;
mod removing;
mod roots;
mod setting;
mod times;
mod tree;
mod usage;
mod wanted;
pub mod wishes;

pub use checks::{changeable, directory, is_writable, no_directory, permitted, regular};
pub use content::asking::Asking;
pub use content::entries::{entry, is_empty, leads_to, new_cookie};
pub use content::file::{ask_holes, ask_resize, has_remains, read, resize, text, write};
pub use content::listing::{EntriesLeft, EntryName, Left, ListedEntry, entries_left};
pub use content::naming::{add_entry, ask_given, ask_left, give_name, leave, rehome, take_entry};
pub use content::shape::BLOCK;
pub use data::{SIZE_LIMIT, TRANSFER_LIMIT, verifier};
pub use found::{
    Known, exports, handle, is_verifier, named, nothing_shown, object, shown, wcc, wcc_of,
};
pub use gather::read_objects;
pub use kinds::{KnownDirectory, KnownFile};
pub use linking::add_link;
pub use locks::{lives, locks_of, next_number, set_bucket, set_locks, set_locks_spending};
pub use makers::{ask_made, lose_link, make_object};
pub use names::{name_checked, plain_name_checked};
pub use new_objects::{
    LINK_LIMIT, MAX_TEXT, MODE_LIMIT, NewContent, Wanted, given_attributes, kind_checked,
};
pub use permission::{Right, class_bits, is_member, may, reads, runs};
pub use removing::{ask_lost, take_name};
pub use roots::{ask_roots, make_root, put_table};
pub use setting::{Settings, set_attributes};
pub use times::{is_client_time, is_server_time, is_time, now, time_set, touch};
pub use tree::{above, is_within};
pub use usage::export_usage;
pub use wanted::{directory_wanted, file_wanted, link_wanted, special_wanted};
