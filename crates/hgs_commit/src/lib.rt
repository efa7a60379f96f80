//! What a commit becomes: new revisions of files, the manifest and the changelog, and what is written of them.
#![tactic(auto)]

pub mod appended;
pub mod appends;
pub mod changeset;
pub mod commit;
pub mod fault;
pub mod file;
pub mod filelog;
pub mod filelogs;
pub mod grow;
pub mod growth;
pub mod hindrance;
pub mod hindrance_kind;
pub mod known;
pub mod laws;
pub mod new_text;
pub mod parents;
pub mod texts;
pub mod tree;
pub mod tree_file;
pub mod walk;
pub mod written;
