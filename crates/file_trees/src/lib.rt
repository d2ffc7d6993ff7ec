//! A tree of files, as a trait: what it gives of its folders, links and files, one after another. Code that is written against it is proved for every
//! implementation. Beside it stands one in memory.
#![tactic(auto)]

mod item;
mod mem_tree;
mod tree;

pub use item::{Cut, Item, Node, Piece};
pub use mem_tree::MemTree;
pub use tree::{Given, Tree};
