//! Files as sources and sinks, by their paths.
ghost use Rattle.std.specs.Prelude.{◌≡◌, ℕ, List, None, Option, IfSome};
ghost use Rattle.std.specs.Path.{path_bytes};
ghost use Rattle.der_core.specs.Words.{FileCall, Obtains, created, opened, read_faults, with_call, write_faults};

use crate::error::Result;
use crate::source_sink::{Close, Source};
use crate::std_io::{FromRead, ToWrite};
use std::fs::File;
use std::path::Path;
use std::rt::Files;

/// Opens files as sources, and creates them as sinks. Each `Files` of std is one. A caller's own says by `opens` and
/// `creates` what a path stands for, and by `calls` which calls were made. Std's files don't report their calls.
pub trait FileSystem {
    /// A file that was opened.
    type Opened: Source + Drop;

    /// A file that was created.
    type Created: Close + Drop;

    /// Opening at this path gave this source, of which nothing was read yet; `None`: it gave none.
    ghost opens: { List ℕ → Option Self.Opened → Type 0 };

    /// Creating at this path gave this sink, to which nothing was written yet; `None`: it gave none.
    ghost creates: { List ℕ → Option Self.Created → Type 0 };

    /// The calls that were made, in order, if they are reported.
    ghost calls: { Self → Option (List FileCall) };

    /// Opens the file at the path. Ok: what the path stands for, by `opens`. Err: `File`, and it stands for nothing.
    fn open(&mut self, path: Path<'_>) -> Result<Self::Opened>
        ensures obtained { Obtains (opens (path_bytes path.entry)) result }
        ensures called { calls self.new ≡ with_call (calls self.old) (opened (path_bytes path.entry)) };

    /// Creates the file at the path, or truncates an old one. Ok: what the path stands for, by `creates`. Err: `File`,
    /// and it stands for nothing.
    fn create(&mut self, path: Path<'_>) -> Result<Self::Created>
        ensures obtained { Obtains (creates (path_bytes path.entry)) result }
        ensures called { calls self.new ≡ with_call (calls self.old) (created (path_bytes path.entry)) };
}

impl<Rt: Files> FileSystem for Rt {
    type Opened = FromRead<Rt::File>;

    type Created = ToWrite<Rt::File>;

    ghost opens = { λ _ opened. IfSome opened (λ source. read_faults source ≡ 0) };

    ghost creates = { λ _ created. IfSome created (λ sink. write_faults sink ≡ 0) };

    ghost calls = { λ _. None };

    fn open(&mut self, path: Path<'_>) -> Result<FromRead<Rt::File>> {
        FromRead::opened(File::open(&*self, path))
    }

    fn create(&mut self, path: Path<'_>) -> Result<ToWrite<Rt::File>> {
        ToWrite::created(File::create(&*self, path))
    }
}
