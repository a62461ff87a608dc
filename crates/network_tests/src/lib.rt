//! Tests alone, of `nfs_server` on sockets: what a client in another thread is answered, over connections and by
//! datagrams, also where eras end between calls or an operator replaces the exports, who is let in, what closes a
//! connection, and which addresses can't be listened on. Each ends with its server, which ends after so many
//! connections.
#![tactic(auto)]

#[cfg(test)]
mod tests;
