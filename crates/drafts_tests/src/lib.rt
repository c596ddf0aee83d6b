//! Runs the reader of fields, the text rules and drafts on small and on long files.

#![tactic(auto)]

#[cfg(test)]
mod adding;
#[cfg(test)]
mod bulk;
#[cfg(test)]
mod fields;
#[cfg(test)]
mod foreign;
#[cfg(test)]
mod limits;
#[cfg(test)]
mod samples;
#[cfg(test)]
mod texts;
