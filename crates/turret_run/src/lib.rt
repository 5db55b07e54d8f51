//! A run with its turrets: both paths of an opened table at once, in four threads, each turret with
//! its place first.
//!
//! `run_with_turrets` gives each turret its place, at which both stand still before the first
//! record, and then, in order and a call each, just the moves of its path's records that the run
//! made, before each wait of these records a rest, and at the end a rest. If the turret or the disk
//! failed it gives a prefix of that, and how many moves the turret missed is told. The layer above
//! leans on that, and on the first of the causes that hold together: a fault of the disk, a fault of a
//! turret, and then as a run of two paths ends. Before a turret is placed the system is asked for the
//! threads of the run, once; if one is refused nothing is done.
//!
//! It runs both paths by `run_pair` (lane_pair): each has a worker, which steps it from its seat, and a drive,
//! which hands its moves to its turret. The turns that are left then are given one by one, in the
//! caller's thread, by `give_turn`. A turret is told to rest at its end where its path has ended, and
//! else behind these turns. After that each turret got all that its path's records tell, or what
//! comes before the point at which it failed.
#![tactic(auto)]

mod crossing;
mod ending;
mod placing;
mod rest;
mod run;
mod turns;

pub use ending::TurretRun;
pub use run::run_with_turrets;

// For users of the library: single turns of any table.
pub use turns::give_turn;
