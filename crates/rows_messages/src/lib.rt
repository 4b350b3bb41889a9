//! Tests of catalogues of messages, which of several sets is taken, and files that a generator makes.
#![tactic(auto)]

#[cfg(test)]
mod choosing;
#[cfg(test)]
mod expected;
#[cfg(test)]
mod made_up;
#[cfg(test)]
mod messages;
#[cfg(test)]
mod pieces;
#[cfg(test)]
mod texts;
