//! Sources that are refused, each with its first bad token, by the forms of the grammar.

mod blocks;
mod edited;
mod expressions;
mod items;
mod pipes;
mod statements;
mod targets;
mod words;
