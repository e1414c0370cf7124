//! What the words of a call ask for.
use crate::pictures::{Picture, picture_of};
use room_run::stamp_of;
use text_reading::{are_digits, value};
use view_pictures::{Form, form_of};

/// What is told where words have another form.
pub(crate) const FORMS: &[u8] =
    b"room_view: words refused; why MODEL [INJECT], why MODEL INJECT JOURNALS [--fuel N], doors MODEL, lint MODEL [INJECT], story MODEL JOURNALS [--actor PATH] [--signal NAME] [--from STAMP] [--to STAMP] [--only-trouble] [--no-system], end MODEL JOURNALS, outputs MODEL JOURNALS, explain MODEL INJECT JOURNALS MESSAGE, diff MODEL INJECT JOURNALS S1 S2, wiring MODEL [FORM], wiring MODEL INJECT JOURNALS --at S [FORM], chart MODEL CLASS [FORM] or run MODEL JOURNALS [FORM] with the options of story; FORM is --svg, --dot or --mermaid\n";

/// The fuel of a run of which no other one is named.
const USUAL_FUEL: u64 = 10_000;

/// The most fuel that a run can have.
const MOST_FUEL: u64 = 100_000;

/// Which lines of a story the words ask for.
#[derive(Clone, Copy)]
pub(crate) struct Options<'a> {
    pub(crate) actor: Option<&'a str>,
    pub(crate) signal: Option<&'a str>,
    pub(crate) from: Option<u64>,
    pub(crate) to: Option<u64>,
    pub(crate) only_trouble: bool,
    pub(crate) no_system: bool,
}

/// What journals call a message: its sender, the environment where none is named, and the stamp of its post.
#[derive(Clone, Copy)]
pub(crate) struct MessageName<'a> {
    pub(crate) word: &'a str,
    pub(crate) party: Option<u8>,
    pub(crate) sent: u64,
}

/// What a message is explained by: the injections and the journals of these files.
#[derive(Clone, Copy)]
pub(crate) struct Message<'a> {
    pub(crate) injections: &'a str,
    pub(crate) journals: &'a str,
    pub(crate) name: MessageName<'a>,
}

/// What is asked of journals over injections.
#[derive(Clone, Copy)]
pub(crate) enum Look {
    /// Whether they are those of a run in which each controller took at most so many turns, and why not.
    Verdict { fuel: u64 },
    /// What changed from one stamp to another, which isn't below it.
    Changes { first: u64, second: u64 },
    /// A picture of those who live at a stamp.
    Wiring { at: u64, form: Form },
}

/// What is asked of the journals of a file over the injections of another one.
#[derive(Clone, Copy)]
pub(crate) struct Judgement<'a> {
    pub(crate) injections: &'a str,
    pub(crate) journals: &'a str,
    pub(crate) look: Look,
}

/// What is asked of a model that isn't refused.
#[derive(Clone, Copy)]
pub(crate) enum Asked<'a> {
    /// Nothing more.
    Nothing,
    /// Whether the injections of this file are refused, and why.
    Injections(&'a str),
    /// Something of journals over injections.
    Journals(Judgement<'a>),
    /// Where messages can come in.
    Doors,
    /// What its author hardly meant; in the injections of this file too, if there is one.
    Lint(Option<&'a str>),
    /// The story of the journals of this file.
    Story(&'a str, Options<'a>),
    /// What was still open where the run of the journals of this file ended.
    End(&'a str),
    /// What nobody hears in the run of the journals of this file.
    Outputs(&'a str),
    /// The way of one message of a run.
    Explain(Message<'a>),
    /// A picture of the model.
    Picture(Picture<'a>),
    /// A picture of the run of the journals of this file.
    Run(&'a str, Form, Options<'a>),
}

/// What the words ask: the file of a model, and what is asked of it.
#[derive(Clone, Copy)]
pub(crate) struct Question<'a> {
    pub(crate) model: &'a str,
    pub(crate) asked: Asked<'a>,
}

/// A word that takes the next one.
#[derive(Clone, Copy)]
enum Flag {
    Actor,
    Signal,
    From,
    To,
}

fn flag_of(word: &str) -> Option<Flag> {
    match word {
        "--actor" => Some(Flag::Actor),
        "--signal" => Some(Flag::Signal),
        "--from" => Some(Flag::From),
        "--to" => Some(Flag::To),
        _ => None,
    }
}

/// The number of up to 19 digits.
fn number_of(digits: &[u8]) -> Option<u64> {
    if digits.is_empty() || digits.len() > 19 || !are_digits(digits) {
        return None;
    }
    Some(value(digits))
}

/// The fuel that these words name, 10,000 where there are none.
fn fuel_of(words: &[String]) -> Option<u64> {
    let [flag, number] = words else {
        return if words.is_empty() {
            Some(USUAL_FUEL)
        } else {
            None
        };
    };
    let digits = number.as_str().as_bytes();
    let fuel = number_of(digits)?;
    if flag.as_str() != "--fuel" || digits.starts_with(b"0") || fuel > MOST_FUEL {
        return None;
    }
    Some(fuel)
}

/// The message that a word names, as `env@16` or `0@15`.
fn message_of(word: &str) -> Option<MessageName<'_>> {
    let bytes = word.as_bytes();
    let at = bytes.iter().position(|byte| *byte == b'@')?;
    let sender = bytes.get(..at).unwrap_or(&[]);
    let sent = number_of(bytes.get(at.saturating_add(1)..).unwrap_or(&[]))?;
    let environment: &[u8] = b"env";
    let party = if sender == environment {
        None
    } else {
        Some(u8::try_from(number_of(sender)?).ok()?)
    };
    Some(MessageName { word, party, sent })
}

/// What options say, with the places of their words.
#[derive(Clone, Copy)]
struct Places {
    actor: Option<usize>,
    signal: Option<usize>,
    from: Option<u64>,
    to: Option<u64>,
    only_trouble: bool,
    no_system: bool,
}

impl Places {
    fn none() -> Places {
        Places {
            actor: None,
            signal: None,
            from: None,
            to: None,
            only_trouble: false,
            no_system: false,
        }
    }

    /// What options say with a flag and the word at a place; none where the flag stood before, or its word
    /// has another form.
    fn with(self, flag: Flag, place: usize, word: &str) -> Option<Places> {
        let mut places = self;
        match flag {
            Flag::Actor if self.actor.is_none() => places.actor = Some(place),
            Flag::Signal if self.signal.is_none() => places.signal = Some(place),
            Flag::From if self.from.is_none() => places.from = Some(number_of(word.as_bytes())?),
            Flag::To if self.to.is_none() => places.to = Some(number_of(word.as_bytes())?),
            _ => return None,
        }
        Some(places)
    }

    /// What options say where only trouble is asked for; none where it was before.
    fn with_trouble(self) -> Option<Places> {
        if self.only_trouble {
            return None;
        }
        let mut places = self;
        places.only_trouble = true;
        Some(places)
    }

    /// What options say where duties are left out; none where they were before.
    fn without_system(self) -> Option<Places> {
        if self.no_system {
            return None;
        }
        let mut places = self;
        places.no_system = true;
        Some(places)
    }
}

/// What options say; none where they have another form.
fn places_of(words: &[String]) -> Option<Places> {
    let mut places = Places::none();
    let mut open = None;
    for (place, word) in words.iter().enumerate() {
        match open {
            Some(flag) => {
                places = places.with(flag, place, word.as_str())?;
                open = None;
            }
            None if word.as_str() == "--only-trouble" => places = places.with_trouble()?,
            None if word.as_str() == "--no-system" => places = places.without_system()?,
            None => open = Some(flag_of(word.as_str())?),
        }
    }
    match open {
        Some(_) => None,
        None => Some(places),
    }
}

/// The word at a place.
fn word_at(words: &[String], place: Option<usize>) -> Option<&str> {
    let word = words.get(place?)?;
    Some(word.as_str())
}

/// Which lines of a story these words ask for.
fn options_of(words: &[String]) -> Option<Options<'_>> {
    let places = places_of(words)?;
    Some(Options {
        actor: word_at(words, places.actor),
        signal: word_at(words, places.signal),
        from: places.from,
        to: places.to,
        only_trouble: places.only_trouble,
        no_system: places.no_system,
    })
}

/// The form of a picture and the words behind it; an SVG is meant where no form is named.
fn form_and_rest(words: &[String]) -> (Form, &[String]) {
    if let [word, rest @ ..] = words
        && let Some(form) = form_of(word.as_str())
    {
        return (form, rest);
    }
    (Form::Svg, words)
}

/// The look at journals that words ask for behind the names of the files, with this command.
fn look_of(command: &str, words: &[String]) -> Option<Look> {
    match (command, words) {
        ("why", fuel) => Some(Look::Verdict {
            fuel: fuel_of(fuel)?,
        }),
        ("diff", [first, second]) => {
            let first = stamp_of(first.as_str())?;
            let second = stamp_of(second.as_str())?;
            (first <= second).then_some(Look::Changes { first, second })
        }
        ("wiring", [flag, at, form @ ..]) if flag.as_str() == "--at" => {
            let (form, rest) = form_and_rest(form);
            let at = stamp_of(at.as_str())?;
            rest.is_empty().then_some(Look::Wiring { at, form })
        }
        _ => None,
    }
}

/// Whether words behind a model are on a stamp of journals.
fn is_at_stamp(words: &[String]) -> bool {
    match words.get(2) {
        Some(flag) => flag.as_str() == "--at",
        None => false,
    }
}

/// What words ask of the journals of a file over the injections of another one, with this command.
fn judgement_of<'a>(command: &str, words: &'a [String]) -> Option<Asked<'a>> {
    let [injections, journals, rest @ ..] = words else {
        return None;
    };
    Some(Asked::Journals(Judgement {
        injections: injections.as_str(),
        journals: journals.as_str(),
        look: look_of(command, rest)?,
    }))
}

fn ask<'a>(model: &'a String, asked: Asked<'a>) -> Option<Question<'a>> {
    Some(Question {
        model: model.as_str(),
        asked,
    })
}

/// What these words ask; none where they are of no form that is known.
pub(crate) fn question_of(words: &[String]) -> Option<Question<'_>> {
    let (command, rest) = words.split_first()?;
    match (command.as_str(), rest) {
        ("why", [model]) => ask(model, Asked::Nothing),
        ("why", [model, injections]) => ask(model, Asked::Injections(injections.as_str())),
        ("why" | "diff", [model, rest @ ..]) => ask(model, judgement_of(command.as_str(), rest)?),
        ("wiring", [model, rest @ ..]) if is_at_stamp(rest) => {
            ask(model, judgement_of(command.as_str(), rest)?)
        }
        ("doors", [model]) => ask(model, Asked::Doors),
        ("lint", [model]) => ask(model, Asked::Lint(None)),
        ("lint", [model, injections]) => ask(model, Asked::Lint(Some(injections.as_str()))),
        ("end", [model, journals]) => ask(model, Asked::End(journals.as_str())),
        ("outputs", [model, journals]) => ask(model, Asked::Outputs(journals.as_str())),
        ("explain", [model, injections, journals, message]) => {
            let name = message_of(message.as_str())?;
            let message = Message {
                injections: injections.as_str(),
                journals: journals.as_str(),
                name,
            };
            ask(model, Asked::Explain(message))
        }
        ("story", [model, journals, options @ ..]) => {
            let options = options_of(options)?;
            ask(model, Asked::Story(journals.as_str(), options))
        }
        ("run", [model, journals, options @ ..]) => {
            let (form, options) = form_and_rest(options);
            let options = options_of(options)?;
            ask(model, Asked::Run(journals.as_str(), form, options))
        }
        (command, [model, options @ ..]) => {
            let picture = picture_of(command, options)?;
            ask(model, Asked::Picture(picture))
        }
        _ => None,
    }
}
