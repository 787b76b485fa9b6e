//! A text that is being read.
ghost use Rattle.std.specs.Prelude.{◌≡◌, ◌++◌, [], length, IsSome, IfOk, OnOk, OnErr};
ghost use Rattle.directory.specs.Walks.{Entries, object_of};
ghost use Rattle.asc_form.specs.Gathering.{gathered_of, AreTexts, IsGathered, Puts, Gathers};
ghost use Rattle.asc_form.specs.Progress.{IsSettled};

use crate::fault::AscFault;
use crate::kinds::{at_line, of_directory};
use crate::settle::{Gathered, keep_all};
use directory::{DirFault, Directory, Draft, DraftFault};
use indexmap::IndexMap;
use item_list::Items;
use memory_core::Memory;
use name_core::Name;
use object_set::{KeptAttrs, Object};
use std::alloc::Global;
use std::marker::Model;

/// Takes what was gathered for a name. An empty list stays in its place.
fn take_pairs(alloc: Global, gathered: &mut Gathered, name: &Name) -> Result<KeptAttrs, Memory>
    ensures pairs { IfOk result (λ pairs. pairs ≡ gathered_of gathered.old.entries name.now) }
    ensures ok { OnOk result (Puts name.now [] gathered.old.entries gathered.new.entries) }
    ensures err { OnErr result (gathered.new.entries ≡ gathered.old.entries) }
{
    match gathered.insert(*name, Items::new(alloc))? {
        Some(pairs) => Ok(pairs),
        None => Ok(Items::new(alloc)),
    }
}

/// The attributes with more at the end.
fn joined(pairs: KeptAttrs, more: KeptAttrs) -> Result<KeptAttrs, Memory>
    ensures { IfOk result (λ all. all ≡ pairs ++ more) }
{
    let mut all = pairs.into_vec();
    let mut rest = more.into_vec();
    all.append(&mut rest)?;
    Ok(Items::of_vec(all))
}

/// Gathers more for a name.
fn gather(
    alloc: Global,
    gathered: &mut Gathered,
    name: &Name,
    more: KeptAttrs,
) -> Result<(), Memory>
    ensures ok { OnOk result (Gathers name.now more gathered.old.entries gathered.new.entries) }
    ensures kept { (objects : Entries) → IsGathered objects gathered.old.entries → IsSome (object_of objects name.now) → AreTexts more → IsGathered objects gathered.new.entries }
{
    let pairs = take_pairs(alloc, gathered, name)?;
    let all = joined(pairs, more)?;
    gathered.insert(*name, all)?;
    Ok(())
}

/// The directory of a draft, or the first object that may not be put, on the line of its command.
fn settle_draft(alloc: Global, draft: Draft, lines: &[u32]) -> Result<Directory, AscFault>
    requires { length lines.now ≡ length draft.objects }
    ensures { IsSettled draft lines.now result }
{
    match draft.settle(alloc) {
        Ok(directory) => Ok(directory),
        Err(DraftFault::At { place, fault }) => {
            Err(at_line(lines[place as usize], of_directory(fault)))
        }
        Err(DraftFault::Memory) => Err(AscFault::Memory),
    }
}

/// A text that is being read. Its objects are put into a draft, with the lines on which their commands begin: whether they
/// may stand is judged at the end, once. What they are to keep is gathered beside them and put in after that, since to
/// change an object is to write it anew. Contracts see the directory with all of it put in, and the objects as they were
/// put.
#[derive(Drop)]
pub(crate) struct Reader {
    draft: Draft,
    gathered: Gathered,
    /// By place.
    lines: Vec<u32>,
    /// That of the command in hand.
    line: u32,
}

impl Model for Reader {
    ghost use Rattle.std.specs.Coded.{codes};
    ghost use Rattle.object_set.specs.contracts.object.Object as parts;
    ghost use Rattle.asc_form.specs.Gathering.{settled};
    ghost use Rattle.asc_form.specs.Progress.{Progress, IsReader};

    ghost Value = { Progress };

    ghost coded = { Prim.hlevel (codes, parts.the_row.coded) };

    ghost view = { λ s. record { made = record { title = s.draft.title; objects = settled s.draft.objects s.gathered.entries }; bare = s.draft.objects; lines = s.lines.items; line = s.line } };

    ghost invariant = { λ s. IsReader s.draft.objects s.gathered.entries s.lines.items };
}

impl Reader {
    ghost use Rattle.std.specs.Prelude.{◌≡◌, Ok, is_some, IfOk, IsSome, OnOk, OnErr};
    ghost use Rattle.object_set.specs.TextValues.{IsTextValue};
    ghost use Rattle.directory.specs.Walks.{object_of};
    ghost use Rattle.asc_form.specs.Reading as reading;
    ghost use Rattle.asc_form.specs.Gathering.{AreTexts};
    ghost use Rattle.asc_form.specs.Progress.{nothing_read, PutsObject, IsEnd};
    ghost use Rattle.asc_form.specs.Steps.{at};

    /// Nothing is read yet. It takes no memory.
    pub(crate) fn new(alloc: Global) -> Reader
        ensures { result ≡ nothing_read }
    {
        Reader {
            draft: Draft::new(alloc),
            gathered: IndexMap::new(alloc),
            lines: Vec::new(alloc),
            line: 0,
        }
    }

    /// The command in hand begins on this line.
    pub(crate) fn begin(&mut self, line: u32)
        ensures { self.new ≡ at self.old line }
    {
        self.line = line;
    }

    /// Whether there is an object of this name.
    pub(crate) fn has(&self, name: &Name) -> bool
        ensures { result ≡ is_some (object_of self.now.made.objects name.now) }
    {
        self.draft.get(name).is_some()
    }

    /// Replaces the title by a text that can be one.
    pub(crate) fn set_title(&mut self, alloc: Global, text: &[u8]) -> Result<(), Memory>
        requires { IsTextValue text.now }
        ensures { OnOk result (self.new ≡ record self.old { made = record self.old.made { title = text.now } }) }
    {
        self.draft.set_title(alloc, text)
    }

    /// Adds an object under a new name, at the end, which the command in hand puts.
    pub(crate) fn put(&mut self, name: &Name, object: Object) -> Result<(), DirFault>
        ensures { PutsObject name.now object self.old result self.new }
    {
        if self.lines.push(self.line).is_err() {
            return Err(DirFault::Memory);
        }
        let answer = self.draft.put(name, object);
        if answer.is_err() {
            let _line = self.lines.pop();
        }
        answer
    }

    /// Keeps attributes of the object of the name.
    pub(crate) fn keep(
        &mut self,
        alloc: Global,
        name: &Name,
        pairs: KeptAttrs,
    ) -> Result<(), Memory>
        requires there { IsSome (object_of self.old.made.objects name.now) }
        requires texts { AreTexts pairs }
        ensures { OnOk result (self.new ≡ record self.old { made = reading.kept_by self.old.made name.now pairs (object_of self.old.made.objects name.now) }) }
    {
        let _count = self.draft.len();
        gather(alloc, &mut self.gathered, name, pairs)
    }

    /// The directory that was read, where the reading came to the end of the text, or the first fault: an object that may
    /// not be put comes before the fault at which the reading ended.
    pub(crate) fn end(
        self,
        alloc: Global,
        read: Result<(), AscFault>,
    ) -> Result<Directory, AscFault>
        ensures { IsEnd self read result }
    {
        let Reader {
            draft,
            gathered,
            lines,
            line: _,
        } = self;
        let directory = settle_draft(alloc, draft, &lines)?;
        read?;
        Ok(keep_all(alloc, directory, gathered)?)
    }
}
