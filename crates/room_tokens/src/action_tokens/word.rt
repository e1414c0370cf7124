//! The words of the action language.
ghost use Rattle.std.specs.Prelude.{◌≡◌};
ghost use Rattle.room_tokens.specs.action_tokens.Words.{spelling_of, first_of, all_words, word_of, word_number, same_word};

/// A word of the action language.
#[derive(Clone, Copy, Drop, PartialEq, Eq)]
pub enum ActionWord {
    If,
    Else,
    Repeat,
    At,
    Defer,
    Recall,
    RecallAll,
    Incarnate,
    Destroy,
    Import,
    Deport,
    Register,
    As,
    Withdraw,
    True,
    False,
    Data,
    Place,
    /// `self`
    Me,
    Panic,
    High,
    General,
    Low,
    Background,
}

static WORDS: [ActionWord; 24] = [
    ActionWord::If,
    ActionWord::Else,
    ActionWord::Repeat,
    ActionWord::At,
    ActionWord::Defer,
    ActionWord::Recall,
    ActionWord::RecallAll,
    ActionWord::Incarnate,
    ActionWord::Destroy,
    ActionWord::Import,
    ActionWord::Deport,
    ActionWord::Register,
    ActionWord::As,
    ActionWord::Withdraw,
    ActionWord::True,
    ActionWord::False,
    ActionWord::Data,
    ActionWord::Place,
    ActionWord::Me,
    ActionWord::Panic,
    ActionWord::High,
    ActionWord::General,
    ActionWord::Low,
    ActionWord::Background,
];

/// How a word is spelled.
fn spelling(word: ActionWord) -> &'static [u8]
    ensures { result.now ≡ spelling_of word }
{
    match word {
        ActionWord::If => b"if",
        ActionWord::Else => b"else",
        ActionWord::Repeat => b"repeat",
        ActionWord::At => b"at",
        ActionWord::Defer => b"defer",
        ActionWord::Recall => b"recall",
        ActionWord::RecallAll => b"recallAll",
        ActionWord::Incarnate => b"incarnate",
        ActionWord::Destroy => b"destroy",
        ActionWord::Import => b"import",
        ActionWord::Deport => b"deport",
        ActionWord::Register => b"register",
        ActionWord::As => b"as",
        ActionWord::Withdraw => b"withdraw",
        ActionWord::True => b"true",
        ActionWord::False => b"false",
        ActionWord::Data => b"data",
        ActionWord::Place => b"place",
        ActionWord::Me => b"self",
        ActionWord::Panic => b"panic",
        ActionWord::High => b"high",
        ActionWord::General => b"general",
        ActionWord::Low => b"low",
        ActionWord::Background => b"background",
    }
}

/// The first of the words that is spelled so.
#[tactic(auto, unfolding(crate::specs::action_tokens::Words::first_of))]
fn first_of(words: &[ActionWord], text: &[u8]) -> Option<ActionWord>
    ensures { result ≡ first_of words.now text.now }
{
    let mut rest = words;
    while let [word, others @ ..] = rest {
        if spelling(*word) == text {
            return Some(*word);
        }
        rest = others;
    }
    None
}

/// The word that is spelled so, if one is.
#[tactic(auto, unfolding(crate::specs::action_tokens::Words::word_of))]
pub fn word_of(text: &[u8]) -> Option<ActionWord>
    ensures { result ≡ word_of text.now }
{
    first_of(&WORDS, text)
}

fn word_number(word: ActionWord) -> u8
    ensures { result ≡ word_number word }
{
    word as u8
}

pub fn same_word(a: ActionWord, b: ActionWord) -> bool
    ensures { result ≡ same_word a b }
{
    word_number(a) == word_number(b)
}
