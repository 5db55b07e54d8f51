//! Tests of lane_pair and turret_run: both paths of a table in memory, with a turret each.
mod codes;
mod runs;
