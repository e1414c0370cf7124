//! The texts that words name.
ghost use Rattle.std.specs.Prelude.{◌≤◌};

use crate::why::tell_refused;
use room_outside::{FileShelf, MAX_TEXT, ReadBefore, ReadRefused, Shelf, TextFile, read_limit};
use room_run::Status;
use std::alloc::{AllocError, Global};
use view_pages::{Named, Page};

/// The most bytes of the text of journals.
const MAX_JOURNALS: u64 = 268_435_456;

/// What a text is.
#[derive(Clone, Copy, PartialEq, Eq)]
pub(crate) enum Kind {
    Model,
    Injections,
    Journals,
}

impl Kind {
    /// The most bytes of such a text.
    fn limit(self) -> u64
        ensures { result ≤ 268435456 }
    {
        match self {
            Kind::Model | Kind::Injections => MAX_TEXT,
            Kind::Journals => MAX_JOURNALS,
        }
    }

    fn too_long(self) -> &'static [u8] {
        match self {
            Kind::Model | Kind::Injections => b"it has more than 1,048,576 bytes",
            Kind::Journals => b"it has more than 268,435,456 bytes",
        }
    }

    /// How a call ends that is given such a text, and refuses it.
    pub(crate) fn refused(self) -> Status {
        match self {
            Kind::Model => Status::ModelRefused,
            Kind::Injections | Kind::Journals => Status::InjectionsRefused,
        }
    }
}

/// The text of this name, or what is told of it and the status.
fn read_from<S: Shelf>(
    alloc: Global,
    shelf: &mut S,
    page: &mut Page,
    name: &str,
    kind: Kind,
) -> Result<Result<Vec<u8>, Status>, AllocError> {
    let limit = kind.limit();
    match read_limit(alloc, shelf, name, limit) {
        Ok(text) => Ok(Ok(text)),
        Err(ReadRefused::Memory) => Err(AllocError),
        Err(ReadRefused::ReadFault) => {
            page.put(name.as_bytes());
            page.put_line(b" was not read");
            Ok(Err(Status::ReadFault))
        }
        Err(ReadRefused::TooLong) => {
            let named = Named { name, text: &[] };
            tell_refused(page, named, kind.too_long());
            Ok(Err(kind.refused()))
        }
    }
}

/// The text of a file, or what is told of it and the status.
pub(crate) fn read(
    rt: HostRuntime,
    page: &mut Page,
    name: &str,
    kind: Kind,
) -> Result<Result<Vec<u8>, Status>, AllocError> {
    read_from(rt.alloc(), &mut FileShelf::new(rt), page, name, kind)
}

/// The text of a model, which may have been read before, or what is told of it and the status.
pub(crate) fn read_model(
    rt: HostRuntime,
    page: &mut Page,
    name: &str,
    before: Vec<TextFile>,
) -> Result<Result<Vec<u8>, Status>, AllocError> {
    let mut shelf = ReadBefore::new(rt, before);
    read_from(rt.alloc(), &mut shelf, page, name, Kind::Model)
}
