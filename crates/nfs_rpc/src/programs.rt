//! The programs that are served, and what they have.

ghost use Rattle.std.specs.Prelude.{◌≡◌};

/// A program that is served, in the one version that is served of it.
#[derive(Clone, Copy, Debug, PartialEq, Eq)]
pub enum Program {
    /// NFS version 3 (RFC 1813).
    Nfs,
    /// MOUNT version 3 (RFC 1813, appendix I).
    Mount,
    /// NLM version 4 (RFC 1813, appendix II).
    Nlm,
}

impl Program {
    ghost use Rattle.nfs_rpc.specs.Programs.{program_of, program_number, program_version, is_built};

    /// The program of a number.
    pub fn from_number(number: u32) -> Option<Program>
        ensures { result ≡ program_of number }
    {
        match number {
            100003 => Some(Program::Nfs),
            100005 => Some(Program::Mount),
            100021 => Some(Program::Nlm),
            _ => None,
        }
    }

    /// The number that a call names it by.
    pub fn number(self) -> u32
        ensures { result ≡ program_number self }
    {
        match self {
            Program::Nfs => 100003,
            Program::Mount => 100005,
            Program::Nlm => 100021,
        }
    }

    /// Its version.
    pub fn version(self) -> u32
        ensures { result ≡ program_version self }
    {
        match self {
            Program::Nfs | Program::Mount => 3,
            Program::Nlm => 4,
        }
    }

    /// Whether the procedure is built.
    pub fn has_procedure(self, procedure: u32) -> bool
        ensures { result ≡ is_built self procedure }
    {
        match self {
            Program::Nfs => procedure <= 21,
            Program::Mount => procedure <= 5,
            Program::Nlm => procedure <= 15 || (20 <= procedure && procedure <= 23),
        }
    }
}
