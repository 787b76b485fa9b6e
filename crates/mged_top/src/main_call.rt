//! The call that is the program, and the replay of a run in an order that a file names.
ghost use Rattle.std.specs.Prelude.{◌≡◌, ◌⊎◌, ◌≤◌, All, None, true, false, map, string_bytes, vec_len};
ghost use Rattle.mged_top.specs.Calls.{Explains, IsComplete, IsBeforeScript, IsBeforeRun};
ghost use Rattle.mged_top.specs.Courses.{has_own_script, has_replay};
ghost use Rattle.mged_top.specs.Outside.{outside};
ghost use Rattle.mged_top.specs.Stages.{Writes, run_status, files_among};

use crate::inputs::{Inputs, read_inputs};
use crate::order::order_of;
use crate::put::put_files;
use crate::status::Status;
use option_words::{OptionsFault, read_options};
use outside_core::{Gate, Shelf, ShelfFault, Sink, Source, write_all};
use script_run::{Run, run_at_once, run_in_order};
use std::alloc::Global;
use std::sync::Wait;
use std::thread::Threads;

/// The status of a run that is written whole.
fn run_status(some_refused: bool) -> Status
    ensures { result ≡ run_status some_refused }
{
    if some_refused {
        Status::SomeRefused
    } else {
        Status::Done
    }
}

/// Writes the transcript of a run to the sink, and then puts its files. It takes no memory of its own, and stops at the first
/// fault.
fn write_run<K: Sink, F: Shelf>(sink: &mut K, shelf: &mut F, run: &Run) -> Status
    requires sessions { All (λ d. (1 ≤ d) × (d ≤ 8)) run.now.order.items }
    requires eight { vec_len run.now.answers ≡ 8 }
    ensures { Writes result run.now.text.items (files_among run.now.order.items run.now.answers.items) run.now.some_refused
        (outside None (K.held sink.old) (F.files shelf.old) (F.puts shelf.old) 0 (K.faults sink.old) (F.faults shelf.old))
        (outside None (K.held sink.new) (F.files shelf.new) (F.puts shelf.new) 0 (K.faults sink.new) (F.faults shelf.new)) }
{
    if write_all(sink, &run.text).is_err() {
        return Status::WriteFault;
    }
    match put_files(shelf, &run.order, &run.answers) {
        Ok(()) => run_status(run.some_refused),
        Err(ShelfFault::Failed) => Status::WriteFault,
        Err(ShelfFault::Memory) => Status::Memory,
    }
}

/// Reads the words, the model that they ask for, the script and the order that `--replay NAME` asks for, runs the commands one
/// after the other in this order, and writes the transcript to the sink and the files to the shelf. It waits for nobody, and
/// always returns, and all is done on the calling thread, whatever number of workers the words ask for. Words without
/// `--replay` are not understood.
pub fn replay_mged<R: Threads + Sync, S: Source, K: Sink, F: Shelf>(
    alloc: Global,
    words: &Vec<String>,
    source: &mut S,
    sink: &mut K,
    shelf: &mut F,
) -> Status
    ensures explained { has_replay (map string_bytes words.now.items) ≡ true → Explains result (map string_bytes words.now.items)
        (outside (S.left source.old) (K.held sink.old) (F.files shelf.old) (F.puts shelf.old) (S.faults source.old) (K.faults sink.old) (F.faults shelf.old))
        (outside (S.left source.new) (K.held sink.new) (F.files shelf.new) (F.puts shelf.new) (S.faults source.new) (K.faults sink.new) (F.faults shelf.new)) }
    ensures complete { has_replay (map string_bytes words.now.items) ≡ true → IsComplete result (map string_bytes words.now.items)
        (outside (S.left source.old) (K.held sink.old) (F.files shelf.old) (F.puts shelf.old) (S.faults source.old) (K.faults sink.old) (F.faults shelf.old))
        (outside (S.left source.new) (K.held sink.new) (F.files shelf.new) (F.puts shelf.new) (S.faults source.new) (K.faults sink.new) (F.faults shelf.new)) }
    ensures no_replay { has_replay (map string_bytes words.now.items) ≡ false → ((result ≡ Status.Usage) ⊎ (result ≡ Status.Memory)) × (source.new ≡ source.old) × (sink.new ≡ sink.old) × (shelf.new ≡ shelf.old) }
    ensures unread { IsBeforeScript result → source.new ≡ source.old }
    ensures demo_unread { has_own_script (map string_bytes words.now.items) ≡ true → source.new ≡ source.old }
    ensures unasked { result ≡ Status.Usage → shelf.new ≡ shelf.old }
    ensures unwritten { IsBeforeRun result → sink.new ≡ sink.old }
{
    let options = match read_options(alloc, words) {
        Ok(options) => options,
        Err(OptionsFault::Usage) => return Status::Usage,
        Err(OptionsFault::Memory) => return Status::Memory,
    };
    let Some(name) = options.replay else {
        return Status::Usage;
    };
    let Inputs {
        directory,
        commands,
    } = match read_inputs(alloc, options.model, source, shelf) {
        Ok(inputs) => inputs,
        Err(status) => return status,
    };
    let commands = commands.items();
    let order = match order_of(alloc, shelf, &name, commands) {
        Ok(order) => order,
        Err(stop) => return stop.status(),
    };
    let Ok(run) = run_in_order::<R>(alloc, directory, commands, order) else {
        return Status::Memory;
    };
    write_run(sink, shelf, &run)
}

/// Reads the words, the model that they ask for and the script, runs its sessions at the same time, and writes the transcript
/// to the sink and the files to the shelf. `words` are those after the program's name: `--load NAME`, `--demo N`,
/// `--replay NAME` and `--workers N`, or none. With `--demo N` the model and the script are those that the number makes, and
/// nothing is read from the source. With `--replay NAME` it is the call of `replay_mged`. With `--workers N` the tiles of a
/// picture or check are shot by so many threads, from 1 to 16, and else by 4, while its session goes on; no clause speaks of
/// how many. The first of the words, the load file, the script and the order file that is refused ends the call with its status.
pub fn mged_main<
    R: AllocGlobal + Threads + Wait + Sync,
    S: Source,
    K: Sink,
    F: Shelf,
    G: Gate + Sync,
>(rt: &R, words: &Vec<String>, source: &mut S, sink: &mut K, shelf: &mut F, gate: &G) -> Status
    ensures explained { Explains result (map string_bytes words.now.items)
        (outside (S.left source.old) (K.held sink.old) (F.files shelf.old) (F.puts shelf.old) (S.faults source.old) (K.faults sink.old) (F.faults shelf.old))
        (outside (S.left source.new) (K.held sink.new) (F.files shelf.new) (F.puts shelf.new) (S.faults source.new) (K.faults sink.new) (F.faults shelf.new)) }
    ensures complete { IsComplete result (map string_bytes words.now.items)
        (outside (S.left source.old) (K.held sink.old) (F.files shelf.old) (F.puts shelf.old) (S.faults source.old) (K.faults sink.old) (F.faults shelf.old))
        (outside (S.left source.new) (K.held sink.new) (F.files shelf.new) (F.puts shelf.new) (S.faults source.new) (K.faults sink.new) (F.faults shelf.new)) }
    ensures unread { IsBeforeScript result → source.new ≡ source.old }
    ensures demo_unread { has_own_script (map string_bytes words.now.items) ≡ true → source.new ≡ source.old }
    ensures unasked { result ≡ Status.Usage → shelf.new ≡ shelf.old }
    ensures unwritten { IsBeforeRun result → sink.new ≡ sink.old }
{
    let alloc = rt.alloc();
    let options = match read_options(alloc, words) {
        Ok(options) => options,
        Err(OptionsFault::Usage) => return Status::Usage,
        Err(OptionsFault::Memory) => return Status::Memory,
    };
    if options.replay.is_some() {
        return replay_mged::<R, S, K, F>(alloc, words, source, sink, shelf);
    }
    let Inputs {
        directory,
        commands,
    } = match read_inputs(alloc, options.model, source, shelf) {
        Ok(inputs) => inputs,
        Err(status) => return status,
    };
    let commands = commands.items();
    let Ok(run) = run_at_once(rt, alloc, directory, commands, options.workers, gate) else {
        return Status::Memory;
    };
    write_run(sink, shelf, &run)
}
