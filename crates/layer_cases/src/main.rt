//! Runs tables of numbers, positions, geometry, texts, parts of commands, directories, devices, lines, models and demos:
//! each row of a file of `data/` asks for one or more calls, and says what they are to answer.
#![tactic(auto)]

mod geometry;
mod lines;
mod models;
mod objects;

use case_text::{CaseFault, Shown, Tables, run_tables};
use std::alloc::Global;
use std::process::ExitCode;

/// What rows may ask of the crates below the program.
struct Layers;

impl Tables for Layers {
    fn answer(
        &self,
        alloc: Global,
        kind: &str,
        given: &[u8],
        out: &mut Shown,
    ) -> Result<(), CaseFault> {
        match kind {
            "line" => lines::answer_line(alloc, given, out),
            "outline" => lines::answer_outline(alloc, given, out),
            "script" => lines::answer_script(alloc, given, out),
            "load" => models::answer_load(alloc, given, out),
            "options" => models::answer_options(alloc, given, out),
            "demo" => models::answer_demo(alloc, given, out),
            _ => match objects::answer(alloc, kind, given, out) {
                Err(CaseFault::Kind) => geometry::answer(alloc, kind, given, out),
                answered => answered,
            },
        }
    }
}

fn main(rt: HostRuntime) -> ExitCode {
    run_tables(&rt, &Layers)
}
