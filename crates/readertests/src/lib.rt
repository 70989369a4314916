// Tests of built-in elements, of the reader and the writer of cards, and of the readers of picture files, job lines and heat readings,
// in a crate of their own so that no reader is proved twice.
#![tactic(auto)]

#[cfg(test)]
mod cards;
#[cfg(test)]
mod files;
#[cfg(test)]
mod heat_readings;
#[cfg(test)]
mod lines;
