//! Which connection gives its place to one that comes, where all places are taken: they are shared out by host.

ghost use Rattle.std.specs.Prelude.{◌≡◌, ◌⊎◌, ◌≤◌, ◌==◌, All, Any, if◌then◌else◌, nat_lt};
ghost use Rattle.std.specs.List.{list_any};
ghost use Rattle.nfs_server.specs.Sharing.{GivesWay, count_of, has_share, hosts_of, is_of, rest_of};

/// For so many milliseconds at least nothing came over a connection that gives way.
const LEAST_REST: u64 = 5_000;

/// An open connection, as who lets others in sees it.
#[derive(Clone, Copy)]
pub(crate) struct Seen {
    /// Its host, as a number.
    pub(crate) host: u128,
    /// For how many milliseconds nothing came over it; None where a call is in progress.
    pub(crate) idle: Option<u64>,
}

impl Seen {
    /// For how many milliseconds it has rested: for none, where a call is in progress.
    fn rest(self) -> u64
        ensures { result ≡ rest_of self }
    {
        self.idle.unwrap_or(0)
    }
}

/// Whether one more connection is let in beside those that are there, where there are so many places.
pub(crate) fn may_enter(present: usize, places: usize) -> bool
    ensures { result ≡ nat_lt present places }
{
    present < places
}

/// Which of the open connections gives its place to one of this host that comes, where there are so many places and all
/// are taken: of those that may, the one that has rested longest.
pub(crate) fn gives_way(present: &[Seen], host: u128, places: usize) -> Option<usize>
    ensures { GivesWay places host present.now result }
{
    let has_share = has_share(present, host, places);
    let most = if has_share {
        0
    } else {
        greatest_count(present)
    };
    let mut found: Option<usize> = None;
    let mut longest: u64 = LEAST_REST - 1;
    for place in 0..present.len() {
        let seen = present[place];
        let rest = seen.rest();
        if longest < rest && is_eligible(present, host, has_share, most, seen) {
            longest = rest;
            found = Some(place);
        }
    }
    found
}

/// Whether this connection may give way to one of the host: one of its own, where that has its share, and else one of a
/// host that has the most.
fn is_eligible(present: &[Seen], host: u128, has_share: bool, most: usize, seen: Seen) -> bool
    ensures { result ≡ (if has_share then seen.host == host else (count_of present.now seen.host == most)) }
{
    if has_share {
        seen.host == host
    } else {
        count_of(present, seen.host) == most
    }
}

/// Whether a host has its share of so many places, or more: what falls to each host that has connections, one at least.
fn has_share(present: &[Seen], host: u128, places: usize) -> bool
    ensures { result ≡ has_share places host present.now }
{
    let share = (places / hosts_of(present).max(1)).max(1);
    share <= count_of(present, host)
}

/// How many connections a host has.
fn count_of(present: &[Seen], host: u128) -> usize
    ensures { result ≡ count_of present.now host }
{
    present.iter().filter(|seen| seen.host == host).count()
}

/// How many hosts have some.
fn hosts_of(present: &[Seen]) -> usize
    ensures { result ≡ hosts_of present.now }
{
    let mut hosts = 0;
    let mut rest = present;
    'rests: while let Some((first, others)) = rest.split_first() {
        hosts = if is_among(others, first.host) {
            hosts
        } else {
            hosts + 1
        };
        rest = others;
    }
    hosts
}

/// Whether a host has one of these.
fn is_among(present: &[Seen], host: u128) -> bool
    ensures { result ≡ list_any (is_of host) present.now }
{
    present.iter().any(|seen| seen.host == host)
}

/// How many the host has that has the most.
fn greatest_count(present: &[Seen]) -> usize
    ensures most { All (λ seen. count_of present.now seen.host ≤ result) present.now }
    ensures some { (result ≡ 0) ⊎ Any (λ seen. count_of present.now seen.host ≡ result) present.now }
{
    let mut most = 0;
    for place in 0..present.len() {
        let seen = present[place];
        most = most.max(count_of(present, seen.host));
    }
    most
}
