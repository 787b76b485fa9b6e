ghost use Rattle.std.specs.Prelude.{◌≡◌, ◌↔◌, ◌∷◌, ◌++◌, [], ℕ, true, false, Some, List, Ok, Err};
ghost use Rattle.name_core.specs.declared.name.Name.{Name};
ghost use Rattle.comb_tree.specs.Nodes.{Comb};
ghost use Rattle.comb_tree.specs.declared.node.ListEntry.{ListEntry};
ghost use Rattle.comb_tree.specs.Lists.{tree_of_list, from_u, HasList};
ghost use Rattle.command_set.specs.declared.command.Command.{Command};
ghost use Rattle.command_set.specs.declared.command.Command.TheVariants.{Edit as IsEdit};
ghost use Rattle.command_set.specs.declared.command.Edit.{Edit};
ghost use Rattle.command_set.specs.declared.refusal.Refusal.{Refusal};
ghost use Rattle.command_set.specs.declared.refusal.Refusal.TheVariants.{Cycle, Deep};
ghost use Rattle.directory.specs.Listing.{Listing};
ghost use Rattle.directory.specs.Walks.{IsSound, IsWalk};
ghost use Rattle.edit_core.specs.ListForms.{list_of};
ghost use Rattle.edit_core.specs.Edits.{made};
ghost use Rattle.edit_core.specs.Refused.{edited};
ghost use Rattle.edit_core.specs.Verdicts.{earlier, ClosesCycle, GoesTooDeep, StaysSound, PassesEdited};
ghost use Rattle.edit_core.specs.Modelling.{next, reply, is_look, IsAccepted};
ghost use Rattle.edit_core.specs.Modelling as modelling;

/// What `list_of` reads off a tree is the tree's list, and it reads one off each tree that has one. It does nothing.
#[tactic(auto, using(crate::proofs::ListLaws::list_is, crate::proofs::ListLaws::list_back))]
pub fn list_laws()
    ensures list { (t : Comb) (l : List ListEntry) → list_of t ≡ Some l → HasList t l }
    ensures found { (l : List ListEntry) → list_of (tree_of_list l) ≡ Some (from_u l) }
{}

/// Exactly an accepted edit makes a new version, and the directory is then the one that the edit makes. A refused edit
/// and a look leave the directory as it was. It does nothing.
pub fn machine_laws()
    ensures commits { (d : Listing) (command : Command) → (modelling.commits d command ≡ true) ↔ IsAccepted d command }
    ensures accepted { (d made : Listing) (edit : Edit) → edited d edit ≡ Ok made → (next d (IsEdit edit) ≡ made) × (reply d (IsEdit edit) ≡ Ok tt) }
    ensures refused { (d : Listing) (edit : Edit) (refusal : Refusal) → edited d edit ≡ Err refusal → (next d (IsEdit edit) ≡ d) × (modelling.commits d (IsEdit edit) ≡ false) × (reply d (IsEdit edit) ≡ Err refusal) }
    ensures looks { (d : Listing) (command : Command) → is_look command ≡ true → (next d command ≡ d) × (modelling.commits d command ≡ false) × (reply d command ≡ Ok tt) }
{}

/// An edit of a sound directory, where no earlier reason holds, is refused for a cycle exactly where a walk of the
/// resulting list begins and ends at the edited name. It is refused for a depth exactly where no walk ends where it began
/// and the most combinations on a walk are so many, over 16. It is accepted exactly where the resulting directory is
/// sound. Each walk that ends where it began passes through the edited name. An earlier reason that holds is the answer.
/// It does nothing.
pub fn refusal_laws()
    ensures earlier { (d : Listing) (edit : Edit) (refusal : Refusal) → earlier d edit ≡ Some refusal → edited d edit ≡ Err refusal }
    ensures cycle { (d : Listing) (edit : Edit) (name : Name) → IsSound d.objects → (edited d edit ≡ Err (Cycle name)) ↔ ClosesCycle d edit name }
    ensures deep { (d : Listing) (edit : Edit) (depth : ℕ) → IsSound d.objects → (edited d edit ≡ Err (Deep depth)) ↔ GoesTooDeep d edit depth }
    ensures sound { (d new : Listing) (edit : Edit) → IsSound d.objects → (edited d edit ≡ Ok new) ↔ StaysSound d edit new }
    ensures passes { (d : Listing) (edit : Edit) (name : Name) (between : List Name) → IsSound d.objects → IsWalk (made d edit).objects ((name ∷ between) ++ name ∷ []) → PassesEdited edit (name ∷ between) }
{}
