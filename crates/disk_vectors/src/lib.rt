//! Tests of the outside on a real machine (real_outside): of a journal on a disk, over the files of
//! the system, and over a folder whose calls can be made to fail and whose medium has only what a
//! sync put there; of files of gates (gate_file) over a disk that keeps every image; of files,
//! outputs and turrets. No crate uses it.
#![tactic(auto)]

#[cfg(test)]
mod answers;
#[cfg(test)]
mod fake_folder;
#[cfg(test)]
mod image_tests;
#[cfg(test)]
mod medium;
#[cfg(test)]
mod medium_tests;
#[cfg(test)]
mod shelf_tests;
#[cfg(test)]
mod sink_tests;
#[cfg(test)]
mod system_tests;
#[cfg(test)]
mod turret_tests;
