//! Where in its records a stream stands, as the headers of their fragments tell (RFC 5531, section 11).

ghost use Rattle.std.specs.Prelude.{◌≡◌, ◌<◌, ◌^◌, length, Bool};
ghost use Rattle.nfs_server.specs.Stages.{behind, behind_byte, behind_header, has_ended, in_body, is_between};
ghost use Rattle.nfs_server.specs.Stages.{RecordsEndBetween, StepsOn};

/// The bit of a fragment's header that marks its record's last fragment.
const LAST_FRAGMENT: u32 = 0x8000_0000;

/// Where in a record a stream stands.
#[derive(Clone, Copy)]
pub(crate) enum Stage {
    /// Between two records, or before the first one.
    Between,
    /// In a fragment's header: so many bytes of it have come, which make this number.
    Header { count: u32, number: u32 },
    /// In a fragment: whether it is its record's last one, and how many bytes of it are to come.
    Body { last: bool, missing: usize },
}

impl Stage {
    /// Whether it stands between two records, or before the first one.
    pub(crate) fn is_between(self) -> bool
        ensures { result ≡ is_between self }
    {
        matches!(self, Stage::Between)
    }

    /// Where it stands behind a piece, and whether a record ended in that.
    pub(crate) fn behind(self, piece: &[u8]) -> (Stage, bool)
        ensures stage { result.0 ≡ behind self piece.now }
        ensures ended { result.1 ≡ has_ended self piece.now }
    {
        let mut stage = self;
        let mut has_ended = false;
        let mut left = piece;
        'steps: while !left.is_empty() {
            let (next, rest) = stage.step(left);
            stage = next;
            left = rest;
            has_ended = has_ended || stage.is_between();
        }
        (stage, has_ended)
    }

    /// Takes what it can from the front of a piece: a byte of a header, or bytes of a fragment. Where it stands then,
    /// and what is left of the piece.
    fn step<'p>(self, piece: &'p [u8]) -> (Stage, &'p [u8])
        requires { 0 < length piece.now }
        ensures { StepsOn self piece.entry.now result.0 result.1.now }
    {
        match self {
            Stage::Between => (Stage::behind_byte(0, 0, piece[0]), &piece[1..]),
            Stage::Header { count, number } => {
                (Stage::behind_byte(count, number, piece[0]), &piece[1..])
            }
            Stage::Body { last, missing } => {
                let size = missing.max(1).min(piece.len());
                let left = missing.saturating_sub(size);
                (Stage::in_body(last, left), &piece[size..])
            }
        }
    }

    /// Behind one more byte of a header, of which so many came before and made this number.
    fn behind_byte(count: u32, number: u32, byte: u8) -> Stage
        ensures { result ≡ behind_byte count number byte }
    {
        let whole = (u64::from(number) * 256 + u64::from(byte)) % (1 << 32);
        let number = whole as u32;
        if count < 3 {
            Stage::Header {
                count: count + 1,
                number,
            }
        } else {
            Stage::behind_header(number)
        }
    }

    /// Behind a header, which makes this number.
    fn behind_header(number: u32) -> Stage
        ensures { result ≡ behind_header number }
    {
        Stage::in_body(number >= LAST_FRAGMENT, (number % LAST_FRAGMENT) as usize)
    }

    /// In a fragment of which so many bytes are to come.
    fn in_body(last: bool, missing: usize) -> Stage
        ensures { result ≡ in_body last missing }
    {
        if missing > 0 {
            Stage::Body { last, missing }
        } else if last {
            Stage::Between
        } else {
            Stage::Header {
                count: 0,
                number: 0,
            }
        }
    }
}

/// The law that a stream of whole records stands between two, as where it began.
pub fn records_end_between()
    ensures { RecordsEndBetween }
{}
