//! Paths (RFC 1813, section 5.2.1): bytes between slashes.

ghost use Rattle.std.specs.Prelude.{◌≡◌, ◌<◌, [], ◌∷◌, length, IfSome, MatchOption};
ghost use Rattle.nfs_machine.specs.Paths.{pieces};

/// The greatest length of a name, which a part of a path is (RFC 1813, 3.3.3), and of a host, in bytes.
pub const MAX_NAME: usize = 255;

/// The bytes up to the first slash, and those after it; None where there is no slash. It takes no memory.
pub fn split_piece(text: &[u8]) -> (&[u8], Option<&[u8]>)
    ensures pieces { MatchOption result.1
        (pieces text.now ≡ result.0.now ∷ [])
        (λ rest. pieces text.now ≡ result.0.now ∷ pieces rest.now) }
    ensures shorter { IfSome result.1 (λ rest. length rest.now < length text.now) }
{
    match text.iter().position(|byte| *byte == b'/') {
        Some(at) => (&text[..at], Some(&text[at + 1..])),
        None => (text, None),
    }
}
