ghost use Rattle.std.specs.Prelude.{All};
ghost use Rattle.object_set.specs.Named.{IsNamedEntry};

use crate::directory::Directory;
use object_set::recall_entry;

/// The names of the objects of a directory and the names in them are names, and their attributes can be kept. Nothing is
/// done here: the types keep this, and the contract tells it to a proof of all objects at once.
pub fn recall_entries(directory: &Directory)
    ensures { All IsNamedEntry directory.now.objects }
{
    for place in 0..directory.len() {
        if let Some((name, object)) = directory.at(place) {
            recall_entry(name, object);
        }
    }
}
