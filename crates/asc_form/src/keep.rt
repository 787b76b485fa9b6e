//! Keeps attributes of an object.
ghost use Rattle.std.specs.Prelude.{◌≡◌, List, IfOk, Ok, Result};
ghost use Rattle.std.specs.Option.{option_copied};
ghost use Rattle.object_set.specs.declared.kept.KeptAttr.{KeptAttr};
ghost use Rattle.put_form.specs.Keeps.{IsKeptRead};
ghost use Rattle.put_form.specs.declared.fault.PutFault.{PutFault};
ghost use Rattle.asc_form.specs.Gathering.{AreTexts};
ghost use Rattle.asc_form.specs.Reading as reading;
ghost use Rattle.asc_form.specs.Steps.{IsMade, named, if_named, unkept};

use crate::fault::AscKind;
use crate::kinds::{CommandFault, of_put};
use crate::reader::Reader;
use name_core::Name;
use object_set::KeptAttrs;
use put_form::PutFault;
use std::alloc::Global;

/// The name that a word is, of an object that is there.
fn named(reader: &Reader, word: Option<&[u8]>) -> Result<Name, AscKind>
    ensures { result ≡ named reader.now.made.objects (option_copied word.entry) }
{
    let Some(word) = word else {
        return Err(AscKind::Name);
    };
    let Ok(name) = Name::read(word) else {
        return Err(AscKind::Name);
    };
    if reader.has(&name) {
        Ok(name)
    } else {
        Err(AscKind::Attr)
    }
}

/// Keeps attributes of the object that a word names.
fn keep_read(
    alloc: Global,
    reader: &mut Reader,
    word: Option<&[u8]>,
    pairs: KeptAttrs,
) -> Result<(), CommandFault>
    requires { AreTexts pairs }
    ensures { IsMade (reading.keep_with reader.old.made (option_copied word.entry) (Ok pairs)) reader.old result reader.new }
{
    let name = named(reader, word)?;
    reader.keep(alloc, &name, pairs)?;
    Ok(())
}

/// This fault, if a word names an object that is there, else why it names none.
fn if_named(reader: &Reader, word: Option<&[u8]>, fault: CommandFault) -> CommandFault
    ensures { result ≡ if_named (named reader.now.made.objects (option_copied word.entry)) fault }
{
    match named(reader, word) {
        Ok(_) => fault,
        Err(kind) => CommandFault::Faulty(kind),
    }
}

/// Why attributes with this fault are not kept of the object that a word names. A fault of their form comes first.
fn unkept(reader: &Reader, word: Option<&[u8]>, fault: PutFault) -> CommandFault
    ensures { result ≡ unkept (named reader.now.made.objects (option_copied word.entry)) fault }
{
    match fault {
        PutFault::Attr => CommandFault::Faulty(AscKind::Attr),
        PutFault::Memory => CommandFault::Memory,
        _ => if_named(reader, word, of_put(fault)),
    }
}

/// Keeps attributes that were read of the object that a word names.
pub(crate) fn keep_command(
    alloc: Global,
    reader: &mut Reader,
    word: Option<&[u8]>,
    read: Result<KeptAttrs, PutFault>,
) -> Result<(), CommandFault>
    requires { IfOk read (λ kept. AreTexts kept) }
    ensures { (pairs : Result (List KeptAttr) PutFault) → IsKeptRead read pairs → IsMade (reading.keep_with reader.old.made (option_copied word.entry) pairs) reader.old result reader.new }
{
    match read {
        Ok(pairs) => keep_read(alloc, reader, word, pairs),
        Err(fault) => Err(unkept(reader, word, fault)),
    }
}
