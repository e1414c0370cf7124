//! Tokens of a language, as they are read one by one.
ghost use Rattle.std.specs.Prelude.{◌≡◌, ◌∷◌, [], ℕ, List, Bool, false, None, option_map, if◌then◌else◌, Some};
ghost use Rattle.room_lexer.specs.declared.token.Mark.{Mark};
ghost use Rattle.room_tokens.specs.Reader.{Reader};
ghost use Rattle.room_tokens.specs.Cursor.{between};

use room_lexer::Mark;

/// A token of a language: a word of it, a mark, a number, a name, or something else. A contract
/// sees a value of it, at the bytes that it is of.
pub trait Lexeme: Copy {
    /// A word of the language.
    type Word: Copy;

    /// What a contract sees.
    ghost Value: { Type 0 };

    ghost value: { List ℕ → Self → Value };

    /// Where its text begins and ends.
    ghost span: { Self → ℕ × ℕ };

    /// Whether a mark comes.
    ghost comes: { Mark → List Value → Bool };

    /// Whether a word comes.
    ghost comes_word: { Self.Word → List Value → Bool };

    /// How a name is read.
    ghost name_at: { Reader Value (List ℕ) };

    /// How a number is read.
    ghost number_at: { Reader Value ℕ };

    /// Where its text begins and ends.
    fn span(self) -> (usize, usize)
        ensures { result ≡ span self };

    fn is_mark(self, mark: Mark) -> bool
        ensures { (bytes : List ℕ) → (rest : List Value) → result ≡ comes mark (value bytes self ∷ rest) };

    fn is_word(self, word: Self::Word) -> bool
        ensures { (bytes : List ℕ) → (rest : List Value) → result ≡ comes_word word (value bytes self ∷ rest) };

    fn is_name(self) -> bool
        ensures { (bytes : List ℕ) → (rest : List Value) → name_at (value bytes self ∷ rest) ≡ (if result then Some (between bytes (span self), rest) else None) };

    /// The number that it is, if it is one.
    fn number(self) -> Option<u64>
        ensures { (bytes : List ℕ) → (rest : List Value) → number_at (value bytes self ∷ rest) ≡ option_map (λ n. (n, rest)) result };

    ghost no_mark: { (m : Mark) → comes m [] ≡ false };

    ghost no_word: { (w : Self.Word) → comes_word w [] ≡ false };

    ghost no_name: { name_at [] ≡ None };

    ghost no_number: { number_at [] ≡ None };
}
