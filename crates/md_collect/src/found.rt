// What a comparison of members finds.

use md_bitmap::Marks;

/// Two members of an array by their indices, the lower one first, and chunks in which they differ.
#[derive(Drop)]
pub struct Pair {
    pub one: usize,
    pub other: usize,
    pub chunks: Marks,
}

/// The chunks in which some two members differ, and of each pair those in which these two do.
#[derive(Drop)]
pub struct Comparison {
    pub chunks: Marks,
    pub pairs: Vec<Pair>,
}
