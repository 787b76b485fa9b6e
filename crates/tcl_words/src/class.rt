//! Which bytes stand in atoms, by a table.
ghost use Rattle.std.specs.Prelude.{◌≡◌, ◌≤◌, ◌<◌, length, slice_index, false};
ghost use Rattle.tcl_words.specs.Cover.{AllBetween};
ghost use Rattle.tcl_words.specs.ReadingSteps as steps;

// A byte that is good in each atom stands as `.`, one that is good inside of groups alone as `i`, and each other as `x`.
static CLASSES: [u8; 256] = *b"\
    xxxxxxxxxxxxxxxxxxxxxxxxxxxxxxxx\
    x.i.i......................i....\
    ...........................ixi..\
    ...........................x.x.x\
    ................................\
    ................................\
    ................................\
    ................................";

fn class_of(byte: u8) -> u8
    ensures { result ≡ steps.class_of byte }
{
    CLASSES[byte as usize]
}

/// Whether a byte is one of an atom, and not bad inside so many groups.
fn is_good(byte: u8, groups: u32) -> bool
    ensures { result ≡ steps.is_good groups byte }
{
    let class = class_of(byte);
    class == b'.' || (class == b'i' && groups != 0)
}

/// Where a run of good bytes ends that begins at a place.
pub(crate) fn good_end(text: &[u8], place: usize, groups: u32) -> usize
    requires { place ≤ length text.now }
    ensures from { place ≤ result }
    ensures within { result ≤ length text.now }
    ensures run { AllBetween (steps.is_good groups) text.now place result }
    ensures end { result < length text.now → steps.is_good groups (slice_index text.now result) ≡ false }
{
    for end in place..text.len() {
        if !is_good(text[end], groups) {
            return end;
        }
    }
    text.len()
}
