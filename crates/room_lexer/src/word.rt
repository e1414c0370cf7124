//! The reserved words.
ghost use Rattle.std.specs.Prelude.{◌≡◌};
ghost use Rattle.room_lexer.specs.Words.{spelling_of, words_with, first_of, word_of};

/// A reserved word of the model language.
#[derive(Clone, Copy, Debug, PartialEq, Eq)]
pub enum Word {
    RoomModel,
    Import,
    From,
    LogicalSystem,
    SubSystemRef,
    SubSystemClass,
    LogicalThread,
    ActorInstanceMapping,
    EventDriven,
    ProtocolClass,
    Incoming,
    Outgoing,
    Message,
    DataClass,
    Attribute,
    True,
    False,
    ActorClass,
    Extends,
    Interface,
    Spp,
    Structure,
    Behavior,
    StateMachine,
    Conjugated,
    Port,
    External,
    Sap,
    ServiceImplementation,
    Of,
    Fixed,
    Optional,
    Imported,
    ActorRef,
    Binding,
    And,
    LayerConnection,
    Ref,
    SatisfiedBy,
    Usercode,
    Usercode1,
    Usercode2,
    Usercode3,
    State,
    Entry,
    Exit,
    Subgraph,
    ChoicePoint,
    TransitionPoint,
    EntryPoint,
    ExitPoint,
    Transition,
    Triggers,
    Cond,
    Action,
    Or,
    Guard,
    Initial,
    Cp,
    My,
    RefinedState,
    RefinedTransition,
}

static TWO: [Word; 4] = [Word::Of, Word::Or, Word::Cp, Word::My];

static THREE: [Word; 4] = [Word::Spp, Word::Sap, Word::And, Word::Ref];

static FOUR: [Word; 5] = [Word::From, Word::True, Word::Port, Word::Exit, Word::Cond];

static FIVE: [Word; 5] = [
    Word::False,
    Word::Fixed,
    Word::State,
    Word::Entry,
    Word::Guard,
];

static SIX: [Word; 2] = [Word::Import, Word::Action];

static SEVEN: [Word; 4] = [Word::Extends, Word::Message, Word::Binding, Word::Initial];

static EIGHT: [Word; 10] = [
    Word::Incoming,
    Word::Outgoing,
    Word::Behavior,
    Word::External,
    Word::Optional,
    Word::Imported,
    Word::ActorRef,
    Word::Usercode,
    Word::Subgraph,
    Word::Triggers,
];

static NINE: [Word; 9] = [
    Word::RoomModel,
    Word::DataClass,
    Word::Attribute,
    Word::Interface,
    Word::Structure,
    Word::Usercode1,
    Word::Usercode2,
    Word::Usercode3,
    Word::ExitPoint,
];

static TEN: [Word; 4] = [
    Word::ActorClass,
    Word::Conjugated,
    Word::EntryPoint,
    Word::Transition,
];

static ELEVEN: [Word; 2] = [Word::EventDriven, Word::ChoicePoint];

static TWELVE: [Word; 4] = [
    Word::SubSystemRef,
    Word::StateMachine,
    Word::SatisfiedBy,
    Word::RefinedState,
];

static THIRTEEN: [Word; 3] = [
    Word::LogicalSystem,
    Word::LogicalThread,
    Word::ProtocolClass,
];

static FOURTEEN: [Word; 1] = [Word::SubSystemClass];

static FIFTEEN: [Word; 2] = [Word::LayerConnection, Word::TransitionPoint];

static SEVENTEEN: [Word; 1] = [Word::RefinedTransition];

static TWENTY: [Word; 1] = [Word::ActorInstanceMapping];

static TWENTY_ONE: [Word; 1] = [Word::ServiceImplementation];

/// How a word is spelled.
pub fn spelling(word: Word) -> &'static [u8]
    ensures { result.now ≡ spelling_of word }
{
    match word {
        Word::RoomModel => b"RoomModel",
        Word::Import => b"import",
        Word::From => b"from",
        Word::LogicalSystem => b"LogicalSystem",
        Word::SubSystemRef => b"SubSystemRef",
        Word::SubSystemClass => b"SubSystemClass",
        Word::LogicalThread => b"LogicalThread",
        Word::ActorInstanceMapping => b"ActorInstanceMapping",
        Word::EventDriven => b"eventdriven",
        Word::ProtocolClass => b"ProtocolClass",
        Word::Incoming => b"incoming",
        Word::Outgoing => b"outgoing",
        Word::Message => b"Message",
        Word::DataClass => b"DataClass",
        Word::Attribute => b"Attribute",
        Word::True => b"true",
        Word::False => b"false",
        Word::ActorClass => b"ActorClass",
        Word::Extends => b"extends",
        Word::Interface => b"Interface",
        Word::Spp => b"SPP",
        Word::Structure => b"Structure",
        Word::Behavior => b"Behavior",
        Word::StateMachine => b"StateMachine",
        Word::Conjugated => b"conjugated",
        Word::Port => b"Port",
        Word::External => b"external",
        Word::Sap => b"SAP",
        Word::ServiceImplementation => b"ServiceImplementation",
        Word::Of => b"of",
        Word::Fixed => b"fixed",
        Word::Optional => b"optional",
        Word::Imported => b"imported",
        Word::ActorRef => b"ActorRef",
        Word::Binding => b"Binding",
        Word::And => b"and",
        Word::LayerConnection => b"LayerConnection",
        Word::Ref => b"ref",
        Word::SatisfiedBy => b"satisfied_by",
        Word::Usercode => b"usercode",
        Word::Usercode1 => b"usercode1",
        Word::Usercode2 => b"usercode2",
        Word::Usercode3 => b"usercode3",
        Word::State => b"State",
        Word::Entry => b"entry",
        Word::Exit => b"exit",
        Word::Subgraph => b"subgraph",
        Word::ChoicePoint => b"ChoicePoint",
        Word::TransitionPoint => b"TransitionPoint",
        Word::EntryPoint => b"EntryPoint",
        Word::ExitPoint => b"ExitPoint",
        Word::Transition => b"Transition",
        Word::Triggers => b"triggers",
        Word::Cond => b"cond",
        Word::Action => b"action",
        Word::Or => b"or",
        Word::Guard => b"guard",
        Word::Initial => b"initial",
        Word::Cp => b"cp",
        Word::My => b"my",
        Word::RefinedState => b"RefinedState",
        Word::RefinedTransition => b"RefinedTransition",
    }
}

/// The reserved words of a length, at most 21 bytes.
#[tactic(auto, unfolding(crate::specs::Words::words_with))]
pub fn words_with(len: usize) -> &'static [Word]
    ensures { result.now ≡ words_with len }
{
    match len {
        2 => &TWO,
        3 => &THREE,
        4 => &FOUR,
        5 => &FIVE,
        6 => &SIX,
        7 => &SEVEN,
        8 => &EIGHT,
        9 => &NINE,
        10 => &TEN,
        11 => &ELEVEN,
        12 => &TWELVE,
        13 => &THIRTEEN,
        14 => &FOURTEEN,
        15 => &FIFTEEN,
        17 => &SEVENTEEN,
        20 => &TWENTY,
        21 => &TWENTY_ONE,
        _ => &[],
    }
}

#[tactic(auto, unfolding(crate::specs::Words::first_of))]
fn first_of(words: &[Word], text: &[u8]) -> Option<Word>
    ensures { result ≡ first_of words.now text.now }
{
    let mut rest = words;
    while let [word, others @ ..] = rest {
        if spelling(*word) == text {
            return Some(*word);
        }
        rest = others;
    }
    None
}

/// The word that is spelled so, if one is.
#[tactic(auto, unfolding(crate::specs::Words::word_of))]
pub fn word_of(text: &[u8]) -> Option<Word>
    ensures { result ≡ word_of text.now }
{
    first_of(words_with(text.len()), text)
}
