// Numbers of nodes that cost least over links between them.
#![tactic(auto)]

mod costs;
mod edge;
mod least;
mod list;
mod theorems;

pub use costs::cost;
pub use edge::{link, self_link};
pub use least::settle;
pub use list::{LinkList, UnfitLinks};
pub use theorems::solved_is_least;
