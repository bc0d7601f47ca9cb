//! What a real form keeps of the faults that it met: how many, and why the last one was one.
ghost use Rattle.std.specs.Prelude.{◌≡◌, ◌≤◌, None};
ghost use Rattle.std.specs.IoError.{error_kind};
ghost use Rattle.rl_base.specs.Causes.{next};
ghost use Rattle.rl_base.specs.Reason.{reason_of, words_of};

use std::io;
use std::io::ErrorKind;

/// Why the system refused, where a person is told so.
#[derive(Clone, Copy, Debug, PartialEq, Eq)]
pub enum Reason {
    /// There is no file of that name.
    NoSuchFile,
    /// The user may not.
    NotPermitted,
    /// The name is that of a folder.
    IsFolder,
    /// There is no room left to write to.
    NoSpace,
    /// Nobody reads what is written any more.
    NoReader,
}

impl Reason {
    /// The reason that a kind of error gives, where it gives one.
    pub fn of(kind: ErrorKind) -> Option<Reason>
        ensures { result ≡ reason_of kind }
    {
        match kind {
            ErrorKind::NotFound => Some(Reason::NoSuchFile),
            ErrorKind::PermissionDenied => Some(Reason::NotPermitted),
            ErrorKind::IsADirectory => Some(Reason::IsFolder),
            ErrorKind::StorageFull => Some(Reason::NoSpace),
            ErrorKind::BrokenPipe => Some(Reason::NoReader),
            _ => None,
        }
    }

    /// What a person is told.
    pub fn words(self) -> &'static str
        ensures { result.now ≡ words_of self }
    {
        match self {
            Reason::NoSuchFile => "no such file",
            Reason::NotPermitted => "permission denied",
            Reason::IsFolder => "a folder",
            Reason::NoSpace => "no space left",
            Reason::NoReader => "nobody reads it",
        }
    }
}

/// The faults that a real form met.
#[derive(Drop)]
pub struct Faults {
    /// How many. The count stands still at its last value.
    pub count: u64,
    /// Why the system refused at the last one, where it says.
    pub reason: Option<Reason>,
}

impl Faults {
    /// None so far.
    pub fn none() -> Faults
        ensures { result ≡ record { count = 0; reason = None } }
    {
        Faults {
            count: 0,
            reason: None,
        }
    }

    /// One more, for an error of the system.
    pub fn add(&mut self, error: &io::Error)
        ensures count { self.new.count ≡ next self.old.count }
        ensures never_falls { self.old.count ≤ self.new.count }
        ensures reason { self.new.reason ≡ reason_of (error_kind error.now) }
    {
        self.count = self.count.saturating_add(1);
        self.reason = Reason::of(error.kind());
    }

    /// One more, of which the system says nothing.
    pub fn add_silent(&mut self)
        ensures count { self.new.count ≡ next self.old.count }
        ensures never_falls { self.old.count ≤ self.new.count }
        ensures reason { self.new.reason ≡ None }
    {
        self.count = self.count.saturating_add(1);
        self.reason = None;
    }
}
