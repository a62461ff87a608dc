//! Datagrams: each is one whole record without a mark, and so is the answer to it.

ghost use Rattle.std.specs.Prelude.{◌≡◌};
ghost use Rattle.std.specs.Option.{option_copied};
ghost use Rattle.nfs_streams.specs.Datagrams.{RepliesMakeDatagrams, datagram_of};

/// How many bytes the mark of a fragment has.
const MARK_SIZE: usize = 4;

/// The most bytes that a datagram has.
pub const MOST_IN_DATAGRAM: usize = 65_507;

/// The datagram that the bytes of an answer make: what stands behind the mark of their one fragment (RFC 5531, section
/// 11). None where there is no reply, or where it is longer than a datagram may be.
pub fn datagram_of(answer: &[u8]) -> Option<&[u8]>
    ensures { option_copied result ≡ datagram_of answer.now }
{
    if answer.len() <= MARK_SIZE || answer.len() > MARK_SIZE + MOST_IN_DATAGRAM {
        return None;
    }
    let (_, reply) = answer.split_at(MARK_SIZE);
    Some(reply)
}

/// The law that a reply which is one fragment makes the datagram of its body.
pub fn replies_make_datagrams()
    ensures { RepliesMakeDatagrams }
{}
