//! The commands by which exports are gathered and handed in, line by line.

ghost use Rattle.std.specs.Prelude.{◌≡◌, ◌∷◌, ◌++◌, [], map, IfOk, OnErr, OnOk};
ghost use Rattle.nfs_server.specs.Control.{Makes, Takes};
ghost use Rattle.nfs_server.specs.ExportTexts.{export_parts, parts_of};

use crate::exporting::{export_text, shared_text};
use nfs_machine::{ExportError, ExportText, Exports};
use std::alloc::{AllocError, Global};
use std::marker::Model;
use std::mem;

/// What stands before an export.
const ADD: &[u8] = b"add ";

/// What hands the list in.
const APPLY: &[u8] = b"apply";

/// What asks what that would do.
const CHECK: &[u8] = b"check";

/// What asks for the program's end.
const END: &[u8] = b"end";

/// The exports that were added since they were handed in last.
#[derive(Drop)]
pub struct Commands {
    list: Vec<ExportText>,
}

impl Model for Commands {
    ghost use Rattle.std.specs.Prelude.{List, map};
    ghost use Rattle.nfs_server.specs.ExportTexts.{Parts, parts_of};

    ghost Value = { List Parts };

    ghost view = { λ c. map parts_of c.list.items };
}

/// What a line came to.
#[derive(Drop)]
pub enum Taken {
    /// One more export is in the list.
    Added,
    /// The list was handed in: its exports, or why there are none. It is empty.
    Apply(Result<Exports, ExportError>),
    /// The exports of the list, or why there are none. The list is as it was.
    Check(Result<Exports, ExportError>),
    /// The program is to end.
    End,
    /// The line is no command.
    Unknown,
    /// There was no memory for one more export. The list is as it was.
    NoMemory,
}

impl Commands {
    /// No export was added.
    pub fn new(alloc: Global) -> Commands
        ensures { result ≡ [] }
    {
        Commands {
            list: Vec::new(alloc),
        }
    }

    /// Does what a line says, which is without its end: `add PATH,MODE,HOST[,HOST..]`, `check`, `apply` or `end`. An
    /// export is judged as the list is handed in, or checked.
    pub fn take(&mut self, alloc: Global, line: &[u8]) -> Taken
        ensures { Takes self.old line.now result self.new }
    {
        if let Some(text) = line.strip_prefix(ADD) {
            return match self.add(alloc, text) {
                Ok(()) => Taken::Added,
                Err(_) => Taken::NoMemory,
            };
        }
        if line == APPLY {
            return Taken::Apply(self.hand_in(alloc));
        }
        if line == CHECK {
            return Taken::Check(self.exports(alloc));
        }
        if line == END {
            return Taken::End;
        }
        Taken::Unknown
    }

    fn add(&mut self, alloc: Global, text: &[u8]) -> Result<(), AllocError>
        ensures ok { OnOk result (self.new ≡ self.old ++ export_parts text.now ∷ []) }
        ensures err { OnErr result (self.new ≡ self.old) }
    {
        self.list.push(export_text(alloc, text)?)?;
        Ok(())
    }

    fn hand_in(&mut self, alloc: Global) -> Result<Exports, ExportError>
        ensures made { Makes self.old result }
        ensures empty { self.new ≡ [] }
    {
        let list = mem::replace(&mut self.list, Vec::new(alloc));
        Exports::new(alloc, list)
    }

    /// The exports of the list, which stays.
    fn exports(&self, alloc: Global) -> Result<Exports, ExportError>
        ensures { Makes self.now result }
    {
        match self.copy(alloc) {
            Ok(list) => Exports::new(alloc, list),
            Err(_) => Err(ExportError::Memory),
        }
    }

    fn copy(&self, alloc: Global) -> Result<Vec<ExportText>, AllocError>
        ensures { IfOk result (λ copies. map parts_of copies.items ≡ self.now) }
    {
        let mut copies = Vec::with_capacity(alloc, self.list.len())?;
        for text in &self.list {
            copies.push(shared_text(text)?)?;
        }
        Ok(copies)
    }
}
