//! The clients of a run, the cores of their files with their volumes, and the writers, which step in turn on one thread, and the
//! report of it.
#![tactic(auto)]

mod cores;
mod drain;
mod home;
mod lends;
mod opens;
mod run;
mod scene;
mod steps;
mod syncs;
mod writes;

pub use run::{Settings, run_scene};
pub use scene::Scene;
