// The answers to a name and a word, of the token step and of the message walk as text.
#![tactic(auto)]

mod mnemonics;
mod token_text;
mod unit_text;
mod write;

pub use mnemonics::names;
pub use token_text::token_part;
pub use unit_text::{Told, walk_line};
