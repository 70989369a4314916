// Jobs: the bytes of a card, a picture and job lines in, the printed lines out.
#![tactic(auto)]

mod answers;
mod job;
mod lines;
mod prepare;
mod run;

pub use run::run_job;
