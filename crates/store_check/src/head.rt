// Where the numbers of a memory are: its head first, then its nodes.

// The numbers of a relation memory before its nodes.
pub const RELATION_HEAD: usize = 2;

// The place of the number of fields k in it.
pub const FIELDS: usize = 0;

// The place of its node count.
pub const RELATION_COUNT: usize = 1;

// The numbers of a set memory before its nodes.
pub const SET_HEAD: usize = 1;

// The place of its node count.
pub const SET_COUNT: usize = 0;
