//! The tokens and the words of a Java text (Java Language Specification, chapter 3).
#![tactic(auto)]

mod chars;
mod context;
mod fronted;
mod gather;
mod identifier;
mod kind;
pub mod laws;
mod masks;
mod name_places;
mod piece;
mod reserved;
mod scan;
mod token;
mod tokenizer;
mod wide;
mod word_list;

pub use context::Context;
pub use gather::words;
pub use identifier::{is_identifier, is_identifier_at, is_word, spells};
pub use kind::TokenKind;
pub use name_places::places;
pub use token::Token;
pub use tokenizer::tokens;
pub use word_list::WordList;
