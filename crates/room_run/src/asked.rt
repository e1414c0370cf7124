//! What the words of a call ask for.
ghost use Rattle.std.specs.Prelude.{◌≡◌, ◌<◌, option_map, map};
ghost use Rattle.std.specs.String.{string_bytes};
ghost use Rattle.room_run.specs.Words.{Made, Run, Show, Verify, actors_of, asked_by, asked_of, asked_of_files, asked_of_journals, asked_of_journals_with, asked_view, asked_with, files_view, fuel_of, judged_view, record_view, stamp_of};

use text_reading::plain_number;

/// The fuel of a run whose words name none: the most turns that each controller takes.
pub(crate) const USUAL_FUEL: u64 = 10_000;

/// The most fuel that words may name.
const MOST_FUEL: u64 = 100_000;

/// The most actors of a made model.
const MOST_ACTORS: u64 = 4_000;

/// The greatest stamp that words may name.
const MOST_STAMP: u64 = 9_223_372_036_854_775_807;

/// The two files of a run.
#[derive(Clone, Copy)]
pub(crate) struct Files<'a> {
    pub(crate) model: &'a str,
    pub(crate) injections: &'a str,
}

/// A model, and journals of its runs.
#[derive(Clone, Copy)]
pub(crate) struct Record<'a> {
    pub(crate) model: &'a str,
    pub(crate) journals: &'a str,
}

/// The two files of a run, and journals that are judged or shown by them.
#[derive(Clone, Copy)]
pub(crate) struct Judged<'a> {
    pub(crate) run: Files<'a>,
    pub(crate) journals: &'a str,
}

/// What is asked for.
#[derive(Clone, Copy)]
pub(crate) enum Asked<'a> {
    /// Whether the model of this file keeps all rules, and its wiring and charts have no fault.
    Check(&'a str),
    /// The slots and joined places of the model of this file.
    Tree(&'a str),
    /// The run of a model over injections, in which each controller takes so many turns at most.
    Run(Files<'a>, u64),
    /// The text in form 2 of the journals of these files.
    Convert(Record<'a>),
    /// The verdict on journals by the run of a model over injections, in which each controller takes so
    /// many turns at most.
    Verify(Judged<'a>, u64),
    /// The system after all that happened by journals up to a stamp.
    Show(Judged<'a>, u64),
    /// The summary of the run of the made model of so many actors.
    Made(u64),
}

/// The stamp that a word names: 0, or digits without a leading zero.
pub fn stamp_of(word: &str) -> Option<u64>
    ensures { result ≡ stamp_of word.now }
{
    if word == "0" {
        return Some(0);
    }
    plain_number(MOST_STAMP, word.as_bytes())
}

/// The files of these names.
fn files_of<'a>(model: &'a String, injections: &'a String) -> Files<'a>
    ensures { files_view result
        ≡ record { model = string_bytes model.now; injections = string_bytes injections.now } }
{
    Files {
        model: model.as_str(),
        injections: injections.as_str(),
    }
}

/// A model and journals under these names.
fn record_of<'a>(model: &'a String, journals: &'a String) -> Record<'a>
    ensures { record_view result
        ≡ record { model = string_bytes model.now; journals = string_bytes journals.now } }
{
    Record {
        model: model.as_str(),
        journals: journals.as_str(),
    }
}

/// Journals under this name, by the run of these files.
fn judged_of<'a>(run: Files<'a>, journals: &'a String) -> Judged<'a>
    ensures { judged_view result
        ≡ record { run = files_view run.entry; journals = string_bytes journals.now } }
{
    Judged {
        run,
        journals: journals.as_str(),
    }
}

/// A verdict with the fuel that a word names.
fn verify_with<'a>(files: Judged<'a>, word: &[u8]) -> Option<Asked<'a>>
    ensures { option_map asked_view result
        ≡ option_map (Verify (judged_view files.entry)) (fuel_of word.now) }
{
    match plain_number(MOST_FUEL, word) {
        Some(fuel) => Some(Asked::Verify(files, fuel)),
        None => None,
    }
}

/// The system at the stamp that a word names.
fn show_at<'a>(files: Judged<'a>, word: &str) -> Option<Asked<'a>>
    ensures { option_map asked_view result
        ≡ option_map (Show (judged_view files.entry)) (stamp_of word.now) }
{
    match stamp_of(word) {
        Some(at) => Some(Asked::Show(files, at)),
        None => None,
    }
}

/// A run with the fuel that a word names.
fn run_with<'a>(files: Files<'a>, word: &[u8]) -> Option<Asked<'a>>
    ensures { option_map asked_view result
        ≡ option_map (Run (files_view files.entry)) (fuel_of word.now) }
{
    match plain_number(MOST_FUEL, word) {
        Some(fuel) => Some(Asked::Run(files, fuel)),
        None => None,
    }
}

/// A made model of as many actors as a word names.
fn made_of<'a>(word: &[u8]) -> Option<Asked<'a>>
    ensures { option_map asked_view result ≡ option_map Made (actors_of word.now) }
{
    match plain_number(MOST_ACTORS, word) {
        Some(actors) => Some(Asked::Made(actors)),
        None => None,
    }
}

/// What two words ask for.
fn asked_of<'a>(command: &str, word: &'a str) -> Option<Asked<'a>>
    ensures { option_map asked_view result ≡ asked_of command.now word.entry.now }
{
    if command == "check" {
        Some(Asked::Check(word))
    } else if command == "tree" {
        Some(Asked::Tree(word))
    } else if command == "made" {
        made_of(word.as_bytes())
    } else {
        None
    }
}

/// What three words ask for.
fn asked_of_files<'a>(command: &str, model: &'a String, second: &'a String) -> Option<Asked<'a>>
    ensures { option_map asked_view result
        ≡ asked_of_files command.now (string_bytes model.now) (string_bytes second.now) }
{
    if command == "run" {
        Some(Asked::Run(files_of(model, second), USUAL_FUEL))
    } else if command == "convert" {
        Some(Asked::Convert(record_of(model, second)))
    } else {
        None
    }
}

/// What four words ask for.
fn asked_of_journals<'a>(command: &str, run: Files<'a>, journals: &'a String) -> Option<Asked<'a>>
    ensures { option_map asked_view result ≡ asked_of_journals command.now run.entry.model.now
        run.entry.injections.now (string_bytes journals.now) }
{
    if command == "verify" {
        Some(Asked::Verify(judged_of(run, journals), USUAL_FUEL))
    } else {
        None
    }
}

/// What five words ask for.
fn asked_with<'a>(command: &str, files: Files<'a>, flag: &str, fuel: &str) -> Option<Asked<'a>>
    ensures { option_map asked_view result ≡ asked_with command.now files.entry.model.now
        files.entry.injections.now flag.now fuel.now }
{
    if command == "run" && flag == "--fuel" {
        run_with(files, fuel.as_bytes())
    } else {
        None
    }
}

/// What six words ask for.
fn asked_of_journals_with<'a>(
    command: &str,
    files: Judged<'a>,
    flag: &str,
    word: &str,
) -> Option<Asked<'a>>
    ensures { option_map asked_view result ≡ asked_of_journals_with command.now
        files.entry.run.model.now files.entry.run.injections.now files.entry.journals.now flag.now
        word.now }
{
    if command == "verify" && flag == "--fuel" {
        verify_with(files, word.as_bytes())
    } else if command == "show" && flag == "--at" {
        show_at(files, word)
    } else {
        None
    }
}

/// What these words ask for; none where they are of no form that is known.
pub(crate) fn asked_by(words: &[String]) -> Option<Asked<'_>>
    ensures { option_map asked_view result ≡ asked_by (map string_bytes words.now) }
{
    match words {
        [command, word] => asked_of(command.as_str(), word.as_str()),
        [command, model, second] => asked_of_files(command.as_str(), model, second),
        [command, model, injections, journals] => {
            asked_of_journals(command.as_str(), files_of(model, injections), journals)
        }
        [command, model, injections, flag, fuel] => asked_with(
            command.as_str(),
            files_of(model, injections),
            flag.as_str(),
            fuel.as_str(),
        ),
        [command, model, injections, journals, flag, word] => asked_of_journals_with(
            command.as_str(),
            judged_of(files_of(model, injections), journals),
            flag.as_str(),
            word.as_str(),
        ),
        _ => None,
    }
}
