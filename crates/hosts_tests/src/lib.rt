//! Runs the hosts, `find` over tables and the lists of known globals on small and on long files, and shows how to write a host of one's own.

#![tactic(auto)]

mod outer_host;

pub use outer_host::OuterHost;

#[cfg(test)]
mod finding;
#[cfg(test)]
mod known_names;
#[cfg(test)]
mod loosening;
#[cfg(test)]
mod name_hosts;
#[cfg(test)]
mod samples;
#[cfg(test)]
mod table_lookups;
#[cfg(test)]
mod table_makings;
