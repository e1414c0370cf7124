//! Files in memory, and what a read gives of a text.
ghost use Rattle.std.specs.Prelude.{◌≡◌, ◌≤◌, length, MatchOption, None, Some, string_bytes, nat_eq};
ghost use Rattle.std.specs.List.{position_or_len};
ghost use lib.Pointwise.{pointwise};
ghost use Rattle.room_outside.specs.Files.{files_of, text_under, place_of};
ghost use Rattle.room_outside.specs.MemShelf.{that_fit};
ghost use Rattle.room_outside.specs.Shown.{IsReadAt};

/// A name and the text under it.
pub type TextFile = (String, Vec<u8>);

fn first_named(files: &[TextFile], name: &[u8]) -> usize
    ensures within { result ≤ length files.now }
    ensures place { result ≡ position_or_len (λ file. pointwise nat_eq (string_bytes file.0) name.now) files.now }
{
    files
        .iter()
        .take_while(|file| file.0.as_bytes() != name)
        .count()
}

/// The place of the first file of this name, or the place behind the last file.
#[tactic(auto, using(crate::proofs::FileLemmas::file_steps))]
pub(crate) fn place_of(files: &[TextFile], name: &str) -> usize
    ensures within { result ≤ length files.now }
    ensures place { result ≡ place_of (files_of files.now) name.now }
{
    first_named(files, name.as_bytes())
}

/// The text of the first file of this name.
#[tactic(auto, using(crate::proofs::FileLemmas::file_steps))]
pub(crate) fn text_under<'a>(files: &'a [TextFile], name: &str) -> Option<&'a [u8]>
    ensures { MatchOption result (text_under (files_of files.now) name.now ≡ None) (λ text. text_under (files_of files.now) name.now ≡ Some text.now) }
{
    let place = place_of(files, name);
    if place < files.len() {
        Some(files[place].1.as_slice())
    } else {
        None
    }
}

/// Copies the bytes of a text from an offset on to the front of a buffer, as many as fit.
pub(crate) fn copy_at(text: &[u8], from: u64, buf: &mut [u8]) -> usize
    ensures within { result ≤ length buf.new }
    ensures fit { result ≡ that_fit text.now from buf.old }
    ensures read { IsReadAt text.now from result buf.new }
{
    let start = (from as usize).min(text.len());
    let rest = text.split_at(start).1;
    let n = buf.len().min(rest.len());
    buf[..n].copy_from_slice(&rest[..n]);
    n
}
