// The tests of the libraries, in a crate of their own since a crate with tests is proved twice.
#![tactic(auto)]

#[cfg(test)]
mod digits;
#[cfg(test)]
mod file_words;
#[cfg(test)]
mod images;
#[cfg(test)]
mod listings;
#[cfg(test)]
mod refusals;
#[cfg(test)]
mod reports;
#[cfg(test)]
mod words;
