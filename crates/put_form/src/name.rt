//! Reads the name of an object.
ghost use Rattle.std.specs.Prelude.{◌≡◌, None, Some, IfOk, IfErr};
ghost use Rattle.std.specs.Option.{option_copied};
ghost use Rattle.put_form.specs.Puts as puts;

use crate::fault::PutFault;
use name_core::Name;

/// Reads the name that the second word is.
pub(crate) fn read_name(word: Option<&[u8]>) -> Result<Name, PutFault>
    ensures name { IfOk result (λ name. name ≡ puts.name_of (option_copied word.entry)) }
    ensures none { IfOk result (λ _. puts.name_fault (option_copied word.entry) ≡ None) }
    ensures fault { IfErr result (λ fault. (puts.name_fault (option_copied word.entry) ≡ Some fault)) }
{
    let Some(word) = word else {
        return Err(PutFault::Name(2));
    };
    match Name::read(word) {
        Ok(name) => Ok(name),
        Err(_) => Err(PutFault::Name(2)),
    }
}
