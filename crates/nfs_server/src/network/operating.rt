//! The thread that does what an operator's lines say.

use crate::controlling::{Applied, ControlEnd, control};
use nfs_machine::Exports;
use nfs_rpc::stream::Counted;
use std::alloc::Global;
use std::io;

/// Where an operator's lines come from, and where their answers go.
pub trait Operator {
    /// Does what the lines say, and answers them: exports are handed to `apply`, and these stand at first. What ended
    /// it.
    fn listen<F: FnMut(Exports) -> Applied>(
        self,
        alloc: Global,
        standing: Exports,
        apply: F,
    ) -> ControlEnd
        requires { F.IsAlwaysCallable apply };
}

/// Standard input and output.
impl Operator for HostRuntime {
    fn listen<F: FnMut(Exports) -> Applied>(
        self,
        alloc: Global,
        standing: Exports,
        apply: F,
    ) -> ControlEnd {
        let mut reader = Counted::new(self.reader());
        let mut writer = Counted::new(io::writer(&self));
        control(alloc, standing, &mut reader, &mut writer, apply)
    }
}

/// Nobody, who says nothing.
#[derive(Clone, Copy)]
pub struct Nobody;

impl Operator for Nobody {
    fn listen<F: FnMut(Exports) -> Applied>(
        self,
        _alloc: Global,
        _standing: Exports,
        _apply: F,
    ) -> ControlEnd {
        ControlEnd::Input
    }
}
