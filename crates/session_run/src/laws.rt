//! What a reader may conclude of any run.
ghost use Rattle.session_run.specs.Laws.{AnswersAtPlaces, OneDirectory, RisesWithEdits, VersionsNeverFall};
ghost use Rattle.session_run.specs.Points.{ShotsAreTrue, SlantsAlongAxes};

/// Along the commands of a session versions never fall; a version rises by one exactly at an edit that is accepted, and not
/// answered for want of memory; the answer of a command is that of the directory at its place in the order; and places with
/// one version have one directory. The function does nothing: its contract is the law.
pub fn run_laws()
    ensures versions { VersionsNeverFall }
    ensures edits { RisesWithEdits }
    ensures places { AnswersAtPlaces }
    ensures one_directory { OneDirectory }
{}

/// The lines of an accepted `nirt` or `nirtd` are those of partitions that tell what lies at the points of its ray, hit places aside,
/// and no other list does. The function does nothing: its contract is the law.
pub fn shot_law()
    ensures { ShotsAreTrue }
{}

/// The body of `nirtd` along an axis is that of `nirt` for the same ray and names, and names
/// that make no scene or too long a body are refused alike. The function does nothing:
/// its contract is the law.
pub fn slant_law()
    ensures { SlantsAlongAxes }
{}
