//! Tests that need fakes or types of this language: counters of steps, adapters over readers and writers, the shelf of the
//! working folder, gates, a version table that threads share, jobs that several threads run, also while their owner goes on,
//! and kept values. Those of sessions stand in `session_tests`. The other cases of these layers are rows of tables.
#![tactic(auto)]

#[cfg(test)]
mod adapters;
#[cfg(test)]
mod counting;
#[cfg(test)]
mod folder;
#[cfg(test)]
mod gates;
#[cfg(test)]
mod kept_tiles;
#[cfg(test)]
mod pools;
#[cfg(test)]
mod versions;
#[cfg(test)]
mod workers;
