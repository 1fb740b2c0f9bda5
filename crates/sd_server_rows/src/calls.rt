//! Calls of a file server against tables: the trees are those of scripts.

mod planned;
mod rows;
mod served;
mod texts;
