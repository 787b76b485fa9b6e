//! The files of a run, put in the order of their commands.
ghost use Rattle.std.specs.Prelude.{◌≡◌, ◌≢◌, ◌≤◌, ◌<◌, ◌∷◌, List, ℕ, All, Err, OnOk, OnErr, length};
ghost use Rattle.outside_core.specs.Faults.{Rose};
ghost use Rattle.outside_core.specs.Told.{Stays};
ghost use Rattle.outside_core.specs.declared.traits.ShelfFault.TheVariants as faults;
ghost use Rattle.transcript.specs.Run.{file_in};
ghost use Rattle.session_run.specs.Replies.{shown};
ghost use Rattle.mged_top.specs.Outside.{HasGrown, AreCutShort};
ghost use Rattle.mged_top.specs.Stages.{ArePutBy, files_among, files_left};

use item_list::Items;
use outside_core::{Shelf, ShelfFault};
use session_run::Answer;

/// Puts the file of an answer, where it has one.
fn put_file<F: Shelf>(shelf: &mut F, answer: &Answer) -> Result<(), ShelfFault>
    ensures grown { OnOk result (HasGrown (F.files shelf.old) (F.files shelf.new) (F.puts shelf.old) (F.puts shelf.new) (file_in (shown answer.now.outcome))) }
    ensures files_stay { OnErr result (Stays (F.files shelf.old) (F.files shelf.new)) }
    ensures puts_stay { OnErr result (Stays (F.puts shelf.old) (F.puts shelf.new)) }
    ensures some { OnErr result (0 < length (file_in (shown answer.now.outcome))) }
    ensures steady { result ≢ Err faults.Failed → F.faults shelf.new ≡ F.faults shelf.old }
    ensures rose { result ≡ Err faults.Failed → Rose (F.faults shelf.old) (F.faults shelf.new) }
{
    let Ok(found) = &answer.outcome else {
        return Ok(());
    };
    match &found.file {
        Some(file) => shelf.put(&file.name, file.bytes.items()),
        None => Ok(()),
    }
}

/// Takes the next answer of a session, and puts its file.
fn put_next<F: Shelf>(
    shelf: &mut F,
    taken: &mut [usize],
    lists: &[Items<Answer>],
    session: u8,
) -> Result<(), ShelfFault>
    requires session { (1 ≤ session) × (session ≤ 8) }
    requires numbers { length taken.old ≡ 8 }
    requires eight { length lists.now ≡ 8 }
    ensures numbers { length taken.new ≡ 8 }
    ensures put { (rest : List ℕ) → ArePutBy result (F.files shelf.old) (F.files shelf.new) (F.puts shelf.old) (F.puts shelf.new) (files_left (session ∷ rest) taken.old lists.now) (files_left rest taken.new lists.now) }
    ensures steady { result ≢ Err faults.Failed → F.faults shelf.new ≡ F.faults shelf.old }
    ensures rose { result ≡ Err faults.Failed → Rose (F.faults shelf.old) (F.faults shelf.new) }
{
    let place = usize::from(session - 1);
    let at = taken[place];
    match lists[place].items().get(at) {
        Some(answer) => {
            taken[place] = at + 1;
            put_file(shelf, answer)
        }
        None => Ok(()),
    }
}

/// Puts the files of the sessions' answers, in an order of the sessions, and stops at the first put that fails.
pub(crate) fn put_files<F: Shelf>(
    shelf: &mut F,
    order: &[u8],
    lists: &[Items<Answer>],
) -> Result<(), ShelfFault>
    requires sessions { All (λ d. (1 ≤ d) × (d ≤ 8)) order.now }
    requires eight { length lists.now ≡ 8 }
    ensures grown { OnOk result (HasGrown (F.files shelf.old) (F.files shelf.new) (F.puts shelf.old) (F.puts shelf.new) (files_among order.now lists.now)) }
    ensures cut_short { OnErr result (AreCutShort (F.files shelf.old) (F.files shelf.new) (F.puts shelf.old) (F.puts shelf.new) (files_among order.now lists.now)) }
    ensures steady { result ≢ Err faults.Failed → F.faults shelf.new ≡ F.faults shelf.old }
    ensures rose { result ≡ Err faults.Failed → Rose (F.faults shelf.old) (F.faults shelf.new) }
{
    let mut taken = [0usize; 8];
    for session in order {
        put_next(shelf, &mut taken, lists, *session)?;
    }
    Ok(())
}
