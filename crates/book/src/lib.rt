// The book: the counts of a hall, kept on a rack whose bays may fall silent, be exchanged and be mended.
#![tactic(auto)]

mod book;
mod drawer;
mod opening;
mod words;

pub use book::Book;
pub use drawer::{OpenBook, Refused};
