//! Files in memory, which keep the calls on them in order.
ghost use Rattle.std.specs.Prelude.{⊤, None, IfErr};
ghost use Rattle.der_core.specs.Words.{IsFile};

use der_core::{Close, Error, ErrorKind, FileSystem, Result, Sink, Source};
use pkcs1_program::{Beside, Mode, ReplaceFiles, Target};
use std::alloc::{AllocError, Global};
use std::cell::RefCell;
use std::io;
use std::path::Path;

/// A call on files, or on an opened or created one.
#[derive(Clone, Copy, Debug, PartialEq, Eq)]
pub enum Call {
    Open,
    Read,
    Target,
    Create,
    OpenInPlace,
    CreateNew,
    Write,
    Flush,
    Close,
    Rename,
    SyncName,
    Remove,
}

/// The calls so far.
pub type Calls = RefCell<Vec<Call>>;

/// Keeps one more call.
fn keep(calls: &Calls, call: Call) {
    if let Ok(mut calls) = calls.try_borrow_mut() {
        let _ = calls.push(call);
    }
}

/// The files `in`, which can be opened, and `out`, which can be created.
#[derive(Drop)]
pub struct Recorder<'a> {
    pub calls: &'a Calls,
    pub input: &'a [u8],
    /// The call on a file that fails.
    pub failing: Option<Call>,
    /// Another one.
    pub also_failing: Option<Call>,
    /// How `out` is written.
    pub way: Way,
    /// The mode that a new file has to have.
    pub mode: Mode,
}

/// How a file is written.
#[derive(Clone, Copy, Debug, PartialEq, Eq)]
pub enum Way {
    NotAtAll,
    LinkToNothing,
    InPlace,
    /// By a new file. An old one has this mode, if there is one.
    Beside(Option<u32>),
}

impl<'a> Recorder<'a> {
    /// A file that is empty.
    fn created(&self) -> Recorded<'a> {
        Recorded {
            calls: self.calls,
            left: &[],
            failing: self.failing,
            faults: 0,
        }
    }

    /// Keeps a call that is to be made with this path, and whether it succeeds.
    fn called(&self, call: Call, path: Path<'_>, wanted: &str) -> bool {
        keep(self.calls, call);
        path.as_str() == wanted && self.failing != Some(call) && self.also_failing != Some(call)
    }
}

impl<'a> FileSystem for Recorder<'a> {
    type Opened = Recorded<'a>;

    type Created = Recorded<'a>;

    ghost opens = { λ _ _. ⊤ };

    ghost creates = { λ _ _. ⊤ };

    ghost calls = { λ _. None };

    fn open(&mut self, path: Path<'_>) -> Result<Recorded<'a>> {
        keep(self.calls, Call::Open);
        if path.as_str() != "in" {
            return Err(Error::new(ErrorKind::File));
        }
        Ok(Recorded {
            calls: self.calls,
            left: self.input,
            failing: self.failing,
            faults: 0,
        })
    }

    fn create(&mut self, path: Path<'_>) -> Result<Recorded<'a>> {
        self.gives(Call::Create, path, "out")
    }
}

/// The name of the new file.
const NEW: &str = "new";

impl<'a> Recorder<'a> {
    /// Keeps a call of a file system that returns nothing.
    fn done(&self, call: Call, path: Path<'_>, wanted: &str) -> io::Result<()> {
        if self.called(call, path, wanted) {
            Ok(())
        } else {
            Err(io::Error::from(io::ErrorKind::Other))
        }
    }

    /// The same of one that returns a file.
    fn gives(&self, call: Call, path: Path<'_>, wanted: &str) -> Result<Recorded<'a>>
        ensures { IfErr result IsFile }
    {
        if self.called(call, path, wanted) {
            Ok(self.created())
        } else {
            Err(Error::new(ErrorKind::File))
        }
    }
}

impl<'a> ReplaceFiles for Recorder<'a> {
    type New = Recorded<'a>;

    ghost has_mode = { λ _ _. ⊤ };

    ghost aims = { λ _ _. ⊤ };

    ghost opens_in_place = { λ _ _. ⊤ };

    ghost creates_new = { λ _ _. ⊤ };

    /// A regular file that all may read, and its group may write to.
    fn mode(&self, _file: &Recorded<'a>) -> u32 {
        0o100664
    }

    fn target(&mut self, alloc: Global, path: Path<'_>) -> std::result::Result<Target, AllocError> {
        if !self.called(Call::Target, path, "out") {
            return Err(AllocError);
        }
        match self.way {
            Way::NotAtAll => Ok(Target::Refused),
            Way::LinkToNothing => Ok(Target::Dangling),
            Way::InPlace => Ok(Target::InPlace),
            Way::Beside(replaced) => Ok(Target::Beside(Beside {
                to: path.to_path_buf(alloc)?,
                path: Path::new(NEW).to_path_buf(alloc)?,
                replaced,
            })),
        }
    }

    fn open_in_place(&mut self, path: Path<'_>) -> Result<Recorded<'a>> {
        self.gives(Call::OpenInPlace, path, "out")
    }

    fn create_new(&mut self, path: Path<'_>, mode: Mode) -> Result<Recorded<'a>> {
        let wanted = if mode == self.mode { NEW } else { "" };
        self.gives(Call::CreateNew, path, wanted)
    }

    fn rename(&mut self, from: Path<'_>, to: Path<'_>) -> io::Result<()> {
        let wanted = if to.as_str() == "out" { NEW } else { "" };
        self.done(Call::Rename, from, wanted)
    }

    fn sync_name(&mut self, path: Path<'_>) -> io::Result<()> {
        self.done(Call::SyncName, path, "out")
    }

    fn remove(&mut self, path: Path<'_>) -> io::Result<()> {
        self.done(Call::Remove, path, NEW)
    }
}

/// A file that was opened or created.
#[derive(Drop)]
pub struct Recorded<'a> {
    calls: &'a Calls,
    left: &'a [u8],
    failing: Option<Call>,
    faults: u64,
}

impl Source for Recorded<'_> {
    ghost remaining = { λ _. None };

    ghost failures = { λ file. file.faults };

    fn read(&mut self, buf: &mut [u8]) -> Result<usize> {
        keep(self.calls, Call::Read);
        if self.failing == Some(Call::Read) {
            self.faults = self.faults.saturating_add(1);
            return Err(Error::new(ErrorKind::File));
        }
        let count = self.left.len().min(buf.len());
        let (given, left) = self.left.split_at(count);
        buf[..count].copy_from_slice(given);
        self.left = left;
        Ok(count)
    }

    fn faults(&self) -> u64 {
        self.faults
    }
}

impl Sink for Recorded<'_> {
    ghost contents = { λ _. None };

    ghost failures = { λ file. file.faults };

    ghost is_flushed = { λ _. ⊤ };

    fn write(&mut self, bytes: &[u8]) -> Result<usize> {
        keep(self.calls, Call::Write);
        if self.failing == Some(Call::Write) {
            self.faults = self.faults.saturating_add(1);
            return Err(Error::new(ErrorKind::File));
        }
        Ok(bytes.len())
    }

    fn flush(&mut self) -> Result<()> {
        keep(self.calls, Call::Flush);
        if self.failing == Some(Call::Flush) {
            self.faults = self.faults.saturating_add(1);
            return Err(Error::new(ErrorKind::File));
        }
        Ok(())
    }

    fn faults(&self) -> u64 {
        self.faults
    }
}

impl Close for Recorded<'_> {
    ghost is_closed = { λ _. ⊤ };

    fn close(self) {
        keep(self.calls, Call::Close);
    }
}
