//! The files that words name.
ghost use Rattle.std.specs.Prelude.{◌≡◌, option_map, map};
ghost use Rattle.std.specs.String.{string_bytes};
ghost use Rattle.room_run.specs.Named.{named_by, named_view};
ghost use Rattle.room_run.specs.Words.{asked_by};

use crate::asked::{Asked, asked_by};

/// The model and the injections that a call reads, each in a text of at most 1,048,576 bytes.
#[derive(Clone, Copy)]
pub struct NamedFiles<'a> {
    pub model: Option<&'a str>,
    pub injections: Option<&'a str>,
}

/// The model and the injections that these words name; no answer where they are of no form that is
/// known. A made model stands in no file.
pub fn named_files(words: &[String]) -> Option<NamedFiles<'_>>
    ensures { option_map named_view result
        ≡ option_map named_by (asked_by (map string_bytes words.now)) }
{
    let (model, injections) = match asked_by(words)? {
        Asked::Check(model) | Asked::Tree(model) => (Some(model), None),
        Asked::Run(files, _) => (Some(files.model), Some(files.injections)),
        Asked::Convert(record) => (Some(record.model), None),
        Asked::Verify(files, _) | Asked::Show(files, _) => {
            (Some(files.run.model), Some(files.run.injections))
        }
        Asked::Made(_) => (None, None),
    };
    Some(NamedFiles { model, injections })
}
