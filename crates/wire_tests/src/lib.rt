//! Tests alone: the formats of `nfs_xdr`, `nfs_rpc`, `nfs_wire` and `side_wire` over bytes worked out by hand. They
//! stand above the libraries that they test and call only what is public there, so that no library's own proof waits
//! for them.
#![tactic(auto)]

#[cfg(test)]
mod tests;
