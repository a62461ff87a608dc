//! File handles (RFC 1813, section 2.5): 32 bytes that name one object for ever.

ghost use Rattle.std.specs.Prelude.{◌≡◌};

/// The letters `NFD3`, with which each handle of this server begins.
const MARK: u32 = 0x4e46_4433;

/// Names one object: the export and the start of the server that it belongs to, its number, and the generation that
/// the number had when it was made.
#[derive(Clone, Copy, Debug, PartialEq, Eq)]
pub struct Handle {
    pub export: u32,
    pub start: u64,
    pub fileid: u64,
    pub generation: u64,
}

impl Handle {
    ghost use Rattle.nfs_machine.specs.Handles.{handle_bytes, handle_of};

    /// The handle that these bytes are; None where their length or mark is another. It takes no memory.
    pub fn read(bytes: &[u8]) -> Option<Handle>
        ensures { result ≡ handle_of bytes.now }
    {
        let (mark, rest) = bytes.split_first_chunk::<4>()?;
        let (export, rest) = rest.split_first_chunk::<4>()?;
        let (start, rest) = rest.split_first_chunk::<8>()?;
        let (fileid, rest) = rest.split_first_chunk::<8>()?;
        let (generation, rest) = rest.split_first_chunk::<8>()?;
        if !rest.is_empty() || u32::from_be_bytes(*mark) != MARK {
            return None;
        }
        Some(Handle {
            export: u32::from_be_bytes(*export),
            start: u64::from_be_bytes(*start),
            fileid: u64::from_be_bytes(*fileid),
            generation: u64::from_be_bytes(*generation),
        })
    }

    /// The bytes of the handle, as callers get them. It takes no memory.
    pub fn bytes(&self) -> [u8; 32]
        ensures { result ≡ handle_bytes self.now }
    {
        let mut bytes = [0; 32];
        bytes[..4].copy_from_slice(&MARK.to_be_bytes());
        bytes[4..8].copy_from_slice(&self.export.to_be_bytes());
        bytes[8..16].copy_from_slice(&self.start.to_be_bytes());
        bytes[16..24].copy_from_slice(&self.fileid.to_be_bytes());
        bytes[24..].copy_from_slice(&self.generation.to_be_bytes());
        bytes
    }
}
