//! Tests: the machine, its parts, the checkers of tapes, both Initial Orders and the post-mortem, on worked values.
//!
//! Each public call of the machine's parts is tried once on its happy path. Expected values come from the description of
//! the machine, from the listing of May 1949, from the descriptions of the notations and from worked examples, never from
//! the program's own output. The modules whose names end in 1 are those of Initial Orders 1. Depends on the crates up to
//! the post-mortem, on `ed_initial1` and on the printed paper.
#![tactic(auto)]

#[cfg(test)]
mod checker;
#[cfg(test)]
mod checking1;
#[cfg(test)]
mod endings;
#[cfg(test)]
mod entries;
#[cfg(test)]
mod every_word;
#[cfg(test)]
mod items;
#[cfg(test)]
mod loading;
#[cfg(test)]
mod loading1;
#[cfg(test)]
mod messages;
#[cfg(test)]
mod numbers;
#[cfg(test)]
mod orders;
#[cfg(test)]
mod parts;
#[cfg(test)]
mod plain;
#[cfg(test)]
mod post_mortems;
#[cfg(test)]
mod printing;
#[cfg(test)]
mod replaced1;
#[cfg(test)]
mod stores;
#[cfg(test)]
mod support;
#[cfg(test)]
mod support1;
