//! Public calls that no program makes, each made once with ample memory.
#![tactic(auto)]

#[cfg(test)]
mod assembled;
#[cfg(test)]
mod folders;
#[cfg(test)]
mod jumps;
#[cfg(test)]
mod too_large;
#[cfg(test)]
mod world;
#[cfg(test)]
mod woven;
