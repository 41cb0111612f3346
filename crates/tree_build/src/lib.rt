// Trees that a server builds (draft 19, section 5.3): the root and the paths of a batch of leaves, and all rows of its
// tree at once, for a server that answers the whole batch. `bytes`, `depth`, `fill_rows` and `read_path` are for the
// crate above; no other public function has a `requires`.
#![tactic(auto)]

mod ascent;
mod build;
mod fill;
mod level;
mod part;
mod row;
mod siblings;
mod size;

pub use build::{path, path_from, root, rows};
pub use fill::fill_rows;
pub use siblings::read_path;
pub use size::{MOST, bytes, depth, rows_length};

// The root of a batch, and the depth of its tree.
#[derive(Clone, Copy)]
pub struct Rooted {
    pub depth: u32,
    pub root: [u8; 32],
}

// What is written of each level of a tree as it is built: nothing, where the root is all that is wanted; the sibling of
// one node, for a path; or all nodes. An enum of three, since an Option has place for one step only; and the node stands
// beside it and not in `Sibling`, since it changes from level to level and what is wanted does not.
#[derive(Clone, Copy)]
enum Wanted {
    Nothing,
    Sibling,
    Row,
}
