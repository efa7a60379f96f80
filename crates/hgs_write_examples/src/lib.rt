//! Examples of files that one end writes and others read, alone and by the workers of a session, of a session that is refreshed beside a commit, and of one
//! that keeps texts. There is nothing here but tests.
#![tactic(auto)]

#[cfg(test)]
mod beside;
#[cfg(test)]
mod ends;
#[cfg(test)]
mod files;
#[cfg(test)]
mod given;
#[cfg(test)]
mod race;
#[cfg(test)]
mod recent;
#[cfg(test)]
mod sessions;
