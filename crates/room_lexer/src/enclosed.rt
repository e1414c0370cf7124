//! What stands between an opening and its end.
ghost use Rattle.std.specs.Prelude.{◌≡◌, ◌<◌, ◌≤◌, length, IfSome};
ghost use Rattle.room_lexer.specs.Enclosed.{is_blank, walk, closed_len, begins_string};

/// A place inside a block comment, a BLOCK, a STRING or a documentation.
#[derive(Clone, Copy, Debug)]
pub enum Place {
    Comment,
    /// Behind a star of a comment.
    CommentStar,
    Block,
    /// Behind one single quote of a BLOCK.
    BlockQuote,
    /// Behind two single quotes of a BLOCK.
    BlockQuotes,
    Text,
    /// Behind a backslash of a STRING that takes the next byte.
    TextTaken,
    /// Between the strings of a documentation.
    Between,
    /// In a string of a documentation.
    Quoted,
    /// There behind a backslash that takes the next byte.
    QuotedTaken,
}

/// What a byte does at a place: it leads on, ends what was opened, or may not stand there.
#[derive(Clone, Copy, Debug)]
pub enum Step {
    On(Place),
    Ends,
    Breaks,
}

/// Space, tab, carriage return or line feed.
pub fn is_blank(b: u8) -> bool
    ensures { result ≡ is_blank b }
{
    b == b' ' || b == b'\t' || b == b'\r' || b == b'\n'
}

/// In a block comment.
#[tactic(auto, unfolding(crate::specs::Enclosed::walk))]
fn walk_comment(b: u8) -> Place
    ensures { Step.On result ≡ walk Place.Comment b }
{
    if b == b'*' {
        Place::CommentStar
    } else {
        Place::Comment
    }
}

/// What a byte does at a place.
#[tactic(auto, unfolding(crate::specs::Enclosed::walk))]
pub fn walk(place: Place, b: u8) -> Step
    ensures { result ≡ walk place b }
{
    match place {
        Place::Comment => Step::On(walk_comment(b)),
        Place::CommentStar if b == b'/' => Step::Ends,
        Place::CommentStar => Step::On(walk_comment(b)),
        Place::Block if b == b'\'' => Step::On(Place::BlockQuote),
        Place::BlockQuote if b == b'\'' => Step::On(Place::BlockQuotes),
        Place::BlockQuotes if b == b'\'' => Step::Ends,
        Place::Block | Place::BlockQuote | Place::BlockQuotes => Step::On(Place::Block),
        Place::Text if b == b'"' => Step::Ends,
        Place::Text | Place::TextTaken | Place::Quoted | Place::QuotedTaken if b == b'\n' =>
            Step::Breaks,
        Place::Text if b == b'\\' => Step::On(Place::TextTaken),
        Place::Text | Place::TextTaken => Step::On(Place::Text),
        Place::Between if b == b']' => Step::Ends,
        Place::Between if b == b'"' => Step::On(Place::Quoted),
        Place::Between if is_blank(b) => Step::On(Place::Between),
        Place::Between => Step::Breaks,
        Place::Quoted if b == b'"' => Step::On(Place::Between),
        Place::Quoted if b == b'\\' => Step::On(Place::QuotedTaken),
        Place::Quoted | Place::QuotedTaken => Step::On(Place::Quoted),
    }
}

/// How many bytes there are up to the end and with it, if what was opened ends.
#[tactic(auto, unfolding(crate::specs::Enclosed::closed_len))]
pub fn closed_len(place: Place, bytes: &[u8]) -> Option<usize>
    ensures value { result ≡ closed_len place bytes.now }
    ensures within { IfSome result (λ n. (0 < n) × (n ≤ length bytes.now)) }
{
    let mut place = place;
    for (i, b) in bytes.iter().enumerate() {
        match walk(place, *b) {
            Step::On(next) => place = next,
            Step::Ends => return Some(i + 1),
            Step::Breaks => return None,
        }
    }
    None
}

/// Whether a quote comes behind blanks: a `[` before that begins a documentation.
#[tactic(auto, unfolding(crate::specs::Enclosed::begins_string))]
pub fn begins_string(bytes: &[u8]) -> bool
    ensures { result ≡ begins_string bytes.now }
{
    for b in bytes {
        if !is_blank(*b) {
            return *b == b'"';
        }
    }
    false
}
