//! Words of a line, and numbers among them.
ghost use Rattle.std.specs.Prelude.{◌≡◌, ◌+◌, ◌<◌, ◌^◌, length, map, Some, IfNone};
ghost use Rattle.word_values.specs.Kinds as kinds;
ghost use Rattle.mged_words.specs.Commands as commands;

use command_set::Refusal;
use word_values::NumberList;

/// Puts the numbers of the atoms into `out`, each read by its place in the list, or answers the refusal of the first
/// that is none in its range. The words are counted from `word`. Lengths count tenths of a millimetre.
pub(crate) fn read_numbers(
    atoms: &[&[u8]],
    word: u32,
    list: NumberList,
    out: &mut [i64],
) -> Option<Refusal>
    requires room { length out.old ≡ length atoms.now }
    requires few { word + length atoms.now < 2 ^ 32 }
    ensures fault { result ≡ commands.numbers_fault word 1 (kinds.numbers_as list (map (λ a. a.now) atoms.now)) }
    ensures within { IfNone result (kinds.AllWithinKinds list out.new) }
    ensures read { IfNone result (kinds.numbers_as list (map (λ a. a.now) atoms.now) ≡ map (λ n. Some n) out.new) }
{
    for (i, atom) in atoms.iter().enumerate() {
        let Some(number) = list.kind_at(i).read(atom) else {
            return Some(Refusal::Number(word + i as u32));
        };
        out[i] = number;
    }
    None
}
