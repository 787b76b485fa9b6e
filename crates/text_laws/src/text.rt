//! The written text of a directory reads as the same directory.
ghost use Rattle.std.specs.Prelude.{All};
ghost use Rattle.text_laws.specs.TextAgain.{IsEntryAgain, IsTextAgain, AreToldApart};

use crate::line::put_line_reads_again;
use directory::{Directory, recall_entries};

/// The written line of each object of a directory reads as that object. Nothing is done here.
fn recall_lines(directory: &Directory)
    ensures { All IsEntryAgain directory.now.objects }
{
    for place in 0..directory.len() {
        if let Some((name, object)) = directory.at(place) {
            put_line_reads_again(name, object);
        }
    }
}

/// The written text of a directory reads as the same directory. The function does nothing: its contract is the law.
pub fn text_reads_again(directory: &Directory)
    ensures { IsTextAgain directory.now }
{
    let _title = directory.title();
    let _count = directory.len();
    recall_entries(directory);
    recall_lines(directory);
}

/// Two directories with one written text are one directory. The function does nothing: its contract is the law.
pub fn texts_tell_directories_apart(one: &Directory, other: &Directory)
    ensures { AreToldApart one.now other.now }
{
    text_reads_again(one);
    text_reads_again(other);
}
