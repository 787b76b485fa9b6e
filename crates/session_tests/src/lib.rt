//! Tests that need types of this language and the whole run: one session at any version, sessions at once, gates at which
//! threads of one run meet or are noted, and a shelf that finds no memory.
#![tactic(auto)]

#[cfg(test)]
mod at_once;
#[cfg(test)]
mod gates;
#[cfg(test)]
mod meetings;
#[cfg(test)]
mod running;
#[cfg(test)]
mod scarce;
#[cfg(test)]
mod sessions;
