//! Calls that do what they pass on, each with some of its promises: an edit of one is a wrong body of it. Beside them
//! stand callers of codecs, each for every codec. Nothing here is called from elsewhere, so nothing is public.
#![tactic(auto)]

mod array;
mod chunk;
mod doors;
mod examples;
mod levels;
mod parts;
mod refused;
mod run;
mod runs;
mod taken;
mod targets;
mod told_run;
