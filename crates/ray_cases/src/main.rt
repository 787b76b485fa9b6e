//! Runs tables of rays: what lies along them, who claims it, the scenes of names, and what rays meet of these. Each row of
//! a file of `data/` asks one call, and says what it is to answer.
#![tactic(auto)]

mod bodies;
mod claiming;
mod comparing;
mod positions;
mod random;
mod reports;
mod scenes;
mod scripts;
mod settling;
mod shots;
mod texts;
mod tiles;
mod trees;
mod weaves;

use case_text::{CaseFault, Shown, Tables, run_tables};
use std::alloc::Global;
use std::process::ExitCode;

/// What rows may ask of the crates of rays and scenes.
struct Rays;

impl Tables for Rays {
    fn answer(
        &self,
        alloc: Global,
        kind: &str,
        given: &[u8],
        out: &mut Shown,
    ) -> Result<(), CaseFault> {
        match kind {
            "cuts" => claiming::answer_cuts(alloc, given, out),
            "within" => claiming::answer_within(alloc, given, out),
            "nodes" => claiming::answer_nodes(alloc, given, out),
            "claims" => claiming::answer_claims(alloc, given, out),
            "partitions" => settling::answer_partitions(alloc, given, out),
            "overlaps" => settling::answer_overlaps(alloc, settling::Told::Runs, given, out),
            "pairs" => settling::answer_overlaps(alloc, settling::Told::Count, given, out),
            "scene" => scenes::answer_scene(alloc, scenes::Told::Regions, given, out),
            "union_less" => scenes::answer_union_less(alloc, given, out),
            "solids" => scenes::answer_scene(alloc, scenes::Told::Solids, given, out),
            "sizes" => scenes::answer_scene(alloc, scenes::Told::Sizes, given, out),
            "shoot" => shots::answer_ray(alloc, shots::Asked::Partitions, given, out),
            "check" => shots::answer_ray(alloc, shots::Asked::Overlaps, given, out),
            "tile" => tiles::answer_tile(alloc, given, out),
            "report" => reports::answer_report(alloc, given, out),
            "compare" => comparing::answer_compare(alloc, given, out),
            _ => Err(CaseFault::Kind),
        }
    }
}

fn main(rt: HostRuntime) -> ExitCode {
    run_tables(&rt, &Rays)
}
