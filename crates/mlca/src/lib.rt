// The kernel for programs in C: `tools/archive` makes the archive. A slice is a pointer and its count of elements; an answer is a
// struct by value. `over_tables` holds the entry points over tables, each one call of its crate with the same promises; `viewer` holds the
// viewer's calls on stored meshes; `version` says which interface this is. No exported function has a `requires`: every input is answered.
#![tactic(auto)]

pub mod over_tables;
pub mod version;
pub mod viewer;
