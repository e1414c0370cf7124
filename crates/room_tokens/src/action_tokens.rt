//! The tokens of the action language, which are read as those of the model language are.
//!
//! They are the tokens of the model language. Strings, blocks and the model language's reserved
//! words aren't among them, but for those that the action language has too, as `import`.

mod token;
mod word;

pub use token::{ActionToken, Rest, action_tokens};
pub use word::ActionWord;
