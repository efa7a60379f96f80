//! Examples of bytes, names and texts of files, of records, schedules and answers, and of what is found of a revlog. There is nothing here but tests.
#![tactic(auto)]

#[cfg(test)]
mod answers;
#[cfg(test)]
mod bytes;
#[cfg(test)]
mod changesets;
#[cfg(test)]
mod entries;
#[cfg(test)]
mod file_lists;
#[cfg(test)]
mod file_texts;
#[cfg(test)]
mod given;
#[cfg(test)]
mod headers;
#[cfg(test)]
mod input;
#[cfg(test)]
mod journal;
#[cfg(test)]
mod judge;
#[cfg(test)]
mod manifests;
#[cfg(test)]
mod marks;
#[cfg(test)]
mod model;
#[cfg(test)]
mod nodes;
#[cfg(test)]
mod paths;
#[cfg(test)]
mod phases;
#[cfg(test)]
mod plan;
#[cfg(test)]
mod revisions;
#[cfg(test)]
mod revlog;
#[cfg(test)]
mod schedules;
#[cfg(test)]
mod scripts;
#[cfg(test)]
mod store_names;
#[cfg(test)]
mod tracked_paths;
