use crate::changes::{count_leaves, count_named, left_of, lost_head_in, place_nodes, rename_nodes};
use crate::fault::TreeFault;
use crate::limit::LEAVES;
use crate::list::{entries_of, nodes_of_list, same_nodes};
use crate::names::{first_missing, set_of, set_of_entries};
use crate::node::{CombNode, ListEntry};
use lattice_core::Placement;
use memory_core::Memory;
use name_core::Name;
use std::alloc::Global;
use std::marker::Model;

/// A boolean tree over named members, empty or with at most `LEAVES` leaves. Contracts see it as that tree; it is kept
/// as its nodes in postfix order.
#[derive(Debug, Drop)]
pub struct CombTree {
    nodes: Vec<CombNode>,
}

impl Model for CombTree {
    ghost use Rattle.comb_tree.specs.Nodes.{Comb, comb_code, comb_of, comb_nodes, members};
    ghost use Rattle.std.specs.Prelude.{◌≡◌, ◌≤◌, length};

    ghost Value = { Comb };

    ghost coded = { comb_code };

    ghost view = { λ s. comb_of s.nodes.items };

    ghost invariant = { λ s. (comb_nodes (comb_of s.nodes.items) ≡ s.nodes.items) × (length (members (comb_of s.nodes.items)) ≤ 4096) };
}

impl CombTree {
    ghost use Rattle.std.specs.Prelude.{◌≡◌, ◌+◌, ◌<◌, ◌≤◌, ◌^◌, ◌||◌, ℕ, Bool, true, length, IfOk, OnOk, IfSome, MatchOption, vec_len, filter};
    ghost use Rattle.name_core.specs.Same.{same_name};
    ghost use Rattle.comb_tree.specs.Nodes.{comb_nodes, members, IsWellFormed};
    ghost use Rattle.comb_tree.specs.Lists.{HasListForm, HasList, tree_of_list, from_u, is_cut, products};
    ghost use Rattle.comb_tree.specs.Meaning.{comb_holds, some_holds};
    ghost use Rattle.comb_tree.specs.Changes.{map_members, renamed, placed};
    ghost use Rattle.comb_tree.specs.Outcomes.{IsTreeOfList, IsTreeOfNodes, IsAppended, IsRemoved};

    /// The tree of these nodes, which are empty or a well-formed postfix list. `Members` comes where there are over
    /// `LEAVES` leaves; there is no other fault.
    pub fn of_nodes(nodes: Vec<CombNode>) -> Result<CombTree, TreeFault>
        requires short { vec_len nodes < 2 ^ 31 }
        requires tree { IsWellFormed nodes.items }
        ensures { IsTreeOfNodes nodes.items result }
    {
        let count = count_leaves(&nodes);
        if count > LEAVES {
            return Err(TreeFault::Members(count as u32));
        }
        Ok(CombTree { nodes })
    }

    /// Lends the nodes in postfix order.
    pub fn nodes(&self) -> &[CombNode]
        ensures tree { result.now ≡ comb_nodes self.now }
        ensures few { length (members self.now) ≤ 4096 }
        ensures short { length result.now < 8192 }
    {
        &self.nodes
    }

    /// The same tree again.
    pub fn copy(&self, alloc: Global) -> Result<CombTree, Memory>
        ensures { IfOk result (λ t. t ≡ self.now) }
    {
        let nodes = Vec::from_slice(alloc, &self.nodes)?;
        Ok(CombTree { nodes })
    }

    /// The tree of a list: the union of its products, each taken from the left. The first operator is read as the
    /// union's. `Members` comes where the list has over `LEAVES` entries.
    pub fn of_list(alloc: Global, list: &[ListEntry]) -> Result<CombTree, TreeFault>
        requires { length list.now < 2 ^ 31 }
        ensures tree { IsTreeOfList list.now result }
        ensures undone { IfOk result (λ t. HasList t (from_u list.now)) }

        // The members' values being given in the list's order, the tree holds where some product does.
        ensures meaning { IfOk result (λ t. (values : ℕ → Bool) → comb_holds t values ≡ some_holds (products list.now) values) }
    {
        if list.len() > LEAVES {
            return Err(TreeFault::Members(list.len() as u32));
        }
        let tree = CombTree::short(alloc, list)?;
        Ok(tree)
    }

    /// The tree of a list that is short enough.
    fn short(alloc: Global, list: &[ListEntry]) -> Result<CombTree, Memory>
        requires { length list.now ≤ 4096 }
        ensures { IfOk result (λ t. t ≡ tree_of_list list.now) }
    {
        let nodes = nodes_of_list(alloc, list)?;
        Ok(CombTree { nodes })
    }

    /// The list that gives the tree, its first operator being the union's, or `None` where no list gives it.
    pub fn as_list(&self, alloc: Global) -> Result<Option<Vec<ListEntry>>, Memory>
        ensures ok { IfOk result (λ r. MatchOption r (¬ (HasListForm self.now)) (λ v. HasList self.now v.items)) }
        ensures only { IfOk result (λ r. IfSome r (λ v. (l : _) → tree_of_list l ≡ self.now → from_u l ≡ v.items)) }
        ensures few { IfOk result (λ r. IfSome r (λ v. vec_len v ≤ 4096)) }
    {
        let list = entries_of(alloc, &self.nodes)?;
        let again = nodes_of_list(alloc, &list)?;
        if same_nodes(&again, &self.nodes) {
            Ok(Some(list))
        } else {
            Ok(None)
        }
    }

    /// Appends a list to the tree's own, whose last product it goes on with where it does not begin with the union's
    /// operator. `NotList` comes first, then `Members` of the whole.
    pub fn append(&mut self, alloc: Global, list: &[ListEntry]) -> Result<(), TreeFault>
        requires { length list.now < 2 ^ 31 }
        ensures answer { IsAppended result self.old list.now self.new }

        // A list that begins with the union's operator adds where its products hold.
        ensures united { OnOk result (is_cut list.now ≡ true → (values : ℕ → Bool) → comb_holds self.new values ≡ (comb_holds self.old values || some_holds (products list.now) (λ i. values (length (members self.old) + i)))) }
    {
        let Some(mut whole) = self.as_list(alloc)? else {
            return Err(TreeFault::NotList);
        };
        let count = whole.len() + list.len();
        if count > LEAVES {
            return Err(TreeFault::Members(count as u32));
        }
        whole.extend_from_slice(list)?;
        *self = CombTree::short(alloc, &whole)?;
        Ok(())
    }

    /// Removes every entry with one of the names. `NotList` comes first, then `Absent` for the first given name without
    /// an entry, then `Heads` for the first entry in the list that heads a product and would go before one that stays.
    pub fn remove(&mut self, alloc: Global, names: &[Name]) -> Result<(), TreeFault>
        ensures { IsRemoved result self.old names.now self.new }
    {
        let Some(list) = self.as_list(alloc)? else {
            return Err(TreeFault::NotList);
        };
        let there = set_of_entries(alloc, &list)?;
        if let Some(name) = first_missing(names, &there) {
            return Err(TreeFault::Absent(name));
        }
        let gone = set_of(alloc, names)?;
        if let Some(name) = lost_head_in(&gone, &list) {
            return Err(TreeFault::Heads(name));
        }
        let left = left_of(alloc, &gone, &list)?;
        *self = CombTree::short(alloc, &left)?;
        Ok(())
    }

    /// Gives each leaf of the old name the new one.
    pub fn rename(&mut self, old: &Name, new: &Name)
        ensures tree { self.new ≡ map_members (renamed old.now new.now) self.old }
        ensures meaning { (values : ℕ → Bool) → comb_holds self.new values ≡ comb_holds self.old values }
    {
        rename_nodes(&mut self.nodes, *old, *new);
    }

    /// Sets the placement of each leaf of the name, and says how many there were.
    pub fn place_leaf(&mut self, name: &Name, by: Placement) -> u32
        ensures tree { self.new ≡ map_members (placed name.now by) self.old }
        ensures count { result ≡ length (filter (λ m. same_name m.name name.now) (members self.old)) }
        ensures meaning { (values : ℕ → Bool) → comb_holds self.new values ≡ comb_holds self.old values }
    {
        let count = count_named(&self.nodes, *name);
        place_nodes(&mut self.nodes, *name, by);
        count as u32
    }
}
