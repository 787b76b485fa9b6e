ghost use Rattle.std.specs.Prelude.{◌≡◌, ◌≢◌, ◌≤◌, ◌<◌, ◌+◌, ◌-◌, ◌^◌, ℕ, [], None, IfOk, cond, nat_eq};
ghost use Rattle.std.specs.Option.{option_copied, unwrap_or};
ghost use Rattle.name_core.specs.declared.name.Name.{Name as Bytes};
ghost use Rattle.name_core.specs.Same.{same_name};
ghost use Rattle.shared_pages.specs.Buckets.{value_of};
ghost use Rattle.object_pages.specs.Members.{node_names, times, name_of_node};
ghost use Rattle.object_pages.specs.Tallies.{count_on, tally_of, leaves_on, Exchanges, MovesCounts};

use crate::change::{Change, change_of};
use crate::shared_tally::SharedTally;
use crate::tally::Tally;
use comb_tree::CombNode;
use memory_core::Memory;
use name_core::Name;
use shared_pages::SharedMap;
use std::alloc::Global;
use std::marker::Model;

/// The counts of a name with a leaf of the page more.
fn with_leaf(alloc: Global, tally: Option<SharedTally>, page: u64) -> Result<SharedTally, Memory>
    requires { count_on (unwrap_or tally []) page + 1 < 2 ^ 64 }
    ensures { IfOk result (λ t. (n : ℕ) → count_on t n ≡ count_on (unwrap_or tally []) n + cond (nat_eq page n) 1 0) }
{
    match tally {
        Some(tally) => {
            let more = tally.own(alloc)?.add(page, 1)?;
            SharedTally::of_tally(alloc, more)
        }
        None => Ok(SharedTally::of_one(page, 1)),
    }
}

/// The counts of a name with a leaf of the page less. Where that was the last one it gives none, which spares memory; no
/// clause speaks of that.
fn without_leaf(
    alloc: Global,
    tally: Option<SharedTally>,
    page: u64,
) -> Result<Option<SharedTally>, Memory>
    requires { 1 ≤ count_on (unwrap_or tally []) page }
    ensures { IfOk result (λ t. (n : ℕ) → count_on (unwrap_or t []) n + cond (nat_eq page n) 1 0 ≡ count_on (unwrap_or tally []) n) }
{
    let Some(tally) = tally else {
        return Ok(None);
    };
    let left = tally.own(alloc)?.take(page, 1)?;
    if left.len() == 0 {
        return Ok(None);
    }
    let shared = SharedTally::of_tally(alloc, left)?;
    Ok(Some(shared))
}

/// How many leaves of each page name each name. Contracts see the counts, and by `leaves_on` that of a name and a page.
#[derive(Drop)]
pub(crate) struct References {
    tallies: SharedMap<SharedTally>,
}

impl Model for References {
    ghost use Rattle.std.specs.Prelude.{List, ℕ};
    ghost use Rattle.shared_pages.specs.Buckets.{Shelves};

    ghost Value = { Shelves (List (ℕ × ℕ)) };

    ghost view = { λ s. s.tallies };
}

impl References {
    /// No leaves. It takes no memory.
    pub(crate) fn new(alloc: Global) -> References
        ensures { (a : Bytes) → value_of result a ≡ None }
    {
        References {
            tallies: SharedMap::new(alloc),
        }
    }

    /// The same counts again. They are all shared.
    pub(crate) fn copy(&self) -> Result<References, Memory>
        ensures { IfOk result (λ r. r ≡ self.now) }
    {
        let tallies = self.tallies.copy()?;
        Ok(References { tallies })
    }

    /// Lends the counts of a name, by page, or `None` exactly where none are kept.
    pub(crate) fn tally(&self, name: &Name) -> Option<&SharedTally>
        ensures { option_copied result ≡ value_of self.now name.now }
    {
        self.tallies.get(name)
    }

    /// A copy of the counts of a name.
    fn tally_copy(&self, alloc: Global, name: &Name) -> Result<Tally, Memory>
        ensures { IfOk result (λ t. t ≡ tally_of self.now name.now) }
    {
        match self.tally(name) {
            Some(tally) => tally.copy(alloc),
            None => Ok(Tally::new(alloc)),
        }
    }

    /// The counts with these for the name. A name without counts is left out, which spares memory; no clause speaks of that.
    fn put(self, alloc: Global, name: &Name, tally: Tally) -> Result<References, Memory>
        ensures { IfOk result (λ r. (a : Bytes) (n : ℕ) → leaves_on r a n ≡ cond (same_name name.now a) (count_on tally n) (leaves_on self a n)) }
    {
        let References { tallies } = self;
        if tally.len() == 0 {
            let tallies = tallies.remove(alloc, name)?;
            return Ok(References { tallies });
        }
        let shared = SharedTally::of_tally(alloc, tally)?;
        let tallies = tallies.put(alloc, name, shared)?;
        Ok(References { tallies })
    }

    /// The counts with one leaf of the page more for the name.
    fn add_leaf(self, alloc: Global, name: &Name, page: u64) -> Result<References, Memory>
        requires { leaves_on self name.now page + 1 < 2 ^ 64 }
        ensures { IfOk result (λ r. (a : Bytes) (n : ℕ) → leaves_on r a n ≡ cond (same_name name.now a) (leaves_on self name.now n + cond (nat_eq page n) 1 0) (leaves_on self a n)) }
    {
        let References { tallies } = self;
        let (open, tally) = tallies.open(alloc, name)?;
        let tally = with_leaf(alloc, tally, page)?;
        let tallies = open.close(alloc, Some(tally))?;
        Ok(References { tallies })
    }

    /// The counts with one leaf of the page less for the name.
    fn take_leaf(self, alloc: Global, name: &Name, page: u64) -> Result<References, Memory>
        requires { 1 ≤ leaves_on self name.now page }
        ensures { IfOk result (λ r. (a : Bytes) (n : ℕ) → leaves_on r a n ≡ cond (same_name name.now a) (leaves_on self name.now n - cond (nat_eq page n) 1 0) (leaves_on self a n)) }
    {
        let References { tallies } = self;
        let (open, tally) = tallies.open(alloc, name)?;
        let left = without_leaf(alloc, tally, page)?;
        let tallies = open.close(alloc, left)?;
        Ok(References { tallies })
    }

    /// The counts with a leaf of the page less, where the node is one.
    fn take_node(self, alloc: Global, page: u64, node: &CombNode) -> Result<References, Memory>
        requires { (a : Bytes) → times (name_of_node node.now) a ≤ leaves_on self a page }
        ensures { IfOk result (λ r. (a : Bytes) (n : ℕ) → leaves_on r a n + cond (nat_eq page n) (times (name_of_node node.now) a) 0 ≡ leaves_on self a n) }
    {
        match node {
            CombNode::Leaf { name, .. } => self.take_leaf(alloc, name, page),
            _ => Ok(self),
        }
    }

    /// The counts with a leaf of the page more, where the node is one.
    fn add_node(self, alloc: Global, page: u64, node: &CombNode) -> Result<References, Memory>
        requires { (a : Bytes) → leaves_on self a page + times (name_of_node node.now) a < 2 ^ 64 }
        ensures { IfOk result (λ r. (a : Bytes) (n : ℕ) → leaves_on r a n ≡ leaves_on self a n + cond (nat_eq page n) (times (name_of_node node.now) a) 0) }
    {
        match node {
            CombNode::Leaf { name, .. } => self.add_leaf(alloc, name, page),
            _ => Ok(self),
        }
    }

    /// The counts with the leaves among the nodes less.
    fn take(self, alloc: Global, page: u64, nodes: &[CombNode]) -> Result<References, Memory>
        requires { (a : Bytes) → times (node_names nodes.now) a ≤ leaves_on self a page }
        ensures { IfOk result (λ r. (a : Bytes) (n : ℕ) → leaves_on r a n + cond (nat_eq page n) (times (node_names nodes.now) a) 0 ≡ leaves_on self a n) }
    {
        let mut references = self;
        for node in nodes {
            references = references.take_node(alloc, page, node)?;
        }
        Ok(references)
    }

    /// The counts with the leaves among the nodes more.
    fn add(self, alloc: Global, page: u64, nodes: &[CombNode]) -> Result<References, Memory>
        requires { (a : Bytes) → leaves_on self a page + times (node_names nodes.now) a < 2 ^ 64 }
        ensures { IfOk result (λ r. (a : Bytes) (n : ℕ) → leaves_on r a n ≡ leaves_on self a n + cond (nat_eq page n) (times (node_names nodes.now) a) 0) }
    {
        let mut references = self;
        for node in nodes {
            references = references.add_node(alloc, page, node)?;
        }
        Ok(references)
    }

    /// The counts after nodes of the page gave way to others. Nodes that stand at the front or at the end of both cost
    /// nothing but a look.
    pub(crate) fn exchange(
        self,
        alloc: Global,
        page: u64,
        before: &[CombNode],
        after: &[CombNode],
    ) -> Result<References, Memory>
        requires there { (a : Bytes) → times (node_names before.now) a ≤ leaves_on self a page }
        requires room { (a : Bytes) → leaves_on self a page + times (node_names after.now) a < 2 ^ 64 }
        ensures { IfOk result (Exchanges page (node_names before.now) (node_names after.now) self) }
    {
        let Change { front, back } = change_of(before, after);
        let taken = self.take(alloc, page, &before[front..before.len() - back])?;
        taken.add(alloc, page, &after[front..after.len() - back])
    }

    /// The counts of `old` added to those of `new`.
    fn joined(&self, alloc: Global, old: &Name, new: &Name) -> Result<Tally, Memory>
        requires room { (n : ℕ) → leaves_on self.now new.now n + leaves_on self.now old.now n < 2 ^ 64 }
        ensures { IfOk result (λ t. (n : ℕ) → count_on t n ≡ leaves_on self.now new.now n + leaves_on self.now old.now n) }
    {
        let joined = self.tally_copy(alloc, new)?;
        match self.tally(old) {
            Some(tally) => joined.and(alloc, tally),
            None => Ok(joined),
        }
    }

    /// The counts after `new` took the place of `old` in all leaves.
    pub(crate) fn rename(self, alloc: Global, old: &Name, new: &Name) -> Result<References, Memory>
        requires apart { old.now ≢ new.now }
        requires room { (n : ℕ) → leaves_on self new.now n + leaves_on self old.now n < 2 ^ 64 }
        ensures { IfOk result (MovesCounts old.now new.now self) }
    {
        let joined = self.joined(alloc, old, new)?;
        let References { tallies } = self;
        let tallies = tallies.remove(alloc, old)?;
        References { tallies }.put(alloc, new, joined)
    }
}
