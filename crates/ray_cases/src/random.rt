//! Small scripts made at random.

ghost use Rattle.std.specs.Prelude.{◌<◌};

use case_text::CaseFault;
use std::alloc::Global;

/// A number below a limit.
fn pick(state: &mut u64, below: u64) -> u64
    requires { 0 < below }
    ensures { result < below }
{
    *state = state
        .wrapping_mul(6_364_136_223_846_793_005)
        .wrapping_add(1_442_695_040_888_963_407);
    (*state >> 33) % below
}

/// Puts in a line that makes a solid within some millimetres of the origin.
fn push_solid(
    alloc: Global,
    script: &mut String,
    state: &mut u64,
    number: u64,
) -> Result<(), CaseFault> {
    let [x, y, z] = [pick(state, 10), pick(state, 10), pick(state, 10)];
    let size = pick(state, 6) + 3;
    let line = match pick(state, 6) {
        0 => format!(in alloc; "in o{number} half {x} -{y} {z} {size}\n")?,
        1 | 2 => format!(in alloc; "in o{number} sph {x} {y} {z} {size}\n")?,
        _ => {
            let [u, v, w] = [pick(state, 8) + 4, pick(state, 8) + 4, pick(state, 8) + 4];
            format!(in alloc; "in o{number} rpp {x} {u} {y} {v} {z} {w}\n")?
        }
    };
    script.push_str(line.as_str())?;
    Ok(())
}

/// Puts in the name of a solid or of a combination, of so many numbers.
fn push_name(
    alloc: Global,
    script: &mut String,
    state: &mut u64,
    numbers: u64,
) -> Result<(), CaseFault>
    requires { 0 < numbers }
{
    let kind = if pick(state, 2) == 0 { "c" } else { "o" };
    let number = pick(state, numbers);
    let name = format!(in alloc; " {kind}{number}")?;
    script.push_str(name.as_str())?;
    Ok(())
}

/// Puts in the members of a combination, of which some are not there.
fn push_members(
    alloc: Global,
    script: &mut String,
    state: &mut u64,
    members: u64,
) -> Result<(), CaseFault> {
    for _i in 0..members {
        let operator = match pick(state, 4) {
            0 | 1 => " u",
            2 => " -",
            _ => " +",
        };
        script.push_str(operator)?;
        push_name(alloc, script, state, 7)?;
    }
    Ok(())
}

/// Puts in lines that make a combination: a region, one of air, or none, of which a member is turned and moved.
fn push_comb(
    alloc: Global,
    script: &mut String,
    state: &mut u64,
    number: u64,
) -> Result<(), CaseFault> {
    let head = format!(in alloc; "r c{number}")?;
    script.push_str(head.as_str())?;
    let members = pick(state, 4) + 1;
    push_members(alloc, script, state, members)?;
    let line = match pick(state, 4) {
        0 => format!(in alloc; "\n")?,
        1 => format!(in alloc; "\ncattr c{number} air {number}\n")?,
        _ => format!(in alloc; "\ncattr c{number} region no\n")?,
    };
    script.push_str(line.as_str())?;
    let member = pick(state, 7);
    let shift = pick(state, 5);
    let line = format!(in alloc;
        "place c{number} o{member} 0 -1 0 8 1 0 0 {shift} 0 0 1 -1 0 0 0 1\n"
    )?;
    script.push_str(line.as_str())?;
    Ok(())
}

/// Puts in a line that shoots at one to three names.
fn push_shot(alloc: Global, script: &mut String, state: &mut u64) -> Result<(), CaseFault> {
    let [x, y, z] = [pick(state, 10), pick(state, 10), pick(state, 10)];
    let ray = match pick(state, 6) {
        0 => format!(in alloc; "nirt -3 {y} {z} +x")?,
        1 => format!(in alloc; "nirt 15 {y} {z} -x")?,
        2 => format!(in alloc; "nirt {x} -3 {z} +y")?,
        3 => format!(in alloc; "nirt {x} {y} {z} -y")?,
        4 => format!(in alloc; "nirt {x} {y} {z} +z")?,
        _ => format!(in alloc; "nirt {x} {y} 15 -z")?,
    };
    script.push_str(ray.as_str())?;
    let names = pick(state, 3) + 1;
    for _i in 0..names {
        push_name(alloc, script, state, 5)?;
    }
    script.push_str("\n")?;
    Ok(())
}

/// A script of solids, of combinations of them, and of shots.
pub fn random_script(alloc: Global, state: &mut u64) -> Result<String, CaseFault> {
    let mut script = String::new(alloc);
    for number in 0..6u64 {
        push_solid(alloc, &mut script, state, number)?;
    }
    for number in 0..5u64 {
        push_comb(alloc, &mut script, state, number)?;
    }
    for _i in 0..24 {
        push_shot(alloc, &mut script, state)?;
    }
    Ok(script)
}
