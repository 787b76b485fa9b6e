//! Laws of lines and scripts. The functions do nothing: their contracts are the laws.
ghost use Rattle.std.specs.Prelude.{◌≡◌, ◌∷◌, [], ℕ, ℤ, IsTrue, List, Ok, Some, codes, length, map};
ghost use Rattle.lattice_core.specs.Limits.{IsWithin};
ghost use Rattle.lattice_core.specs.declared.limit.TheConstants.{WORLD};
ghost use Rattle.lattice_core.specs.declared.placement.Placement.{Placement};
ghost use Rattle.lattice_core.specs.declared.ray.Dir.{Dir};
ghost use Rattle.lattice_core.specs.declared.vector.V3.{V3};
ghost use Rattle.lattice_core.specs.declared.view.View.{View};
ghost use Rattle.lattice_core.specs.Views.{IsChecked};
ghost use Rattle.name_core.specs.NameText.{IsName};
ghost use Rattle.tree_forms.specs.declared.Op.TheVariants.{U};
ghost use Rattle.region_attr.specs.Attrs.{is_setting};
ghost use Rattle.solid_set.specs.declared.solid.Solid.{Solid};
ghost use Rattle.word_values.specs.Kinds.{numbers_as};
ghost use Rattle.word_values.specs.Matrices.{placement_read};
ghost use Rattle.word_values.specs.Solids.{kind_word, number_count, solid_made};
ghost use Rattle.word_values.specs.declared.atoms.NumberList.TheVariants as lists;
ghost use Rattle.word_values.specs.declared.solid.SolidKind.{SolidKind};
ghost use Rattle.command_set.specs.declared.command.Command.TheVariants as command;
ghost use Rattle.command_set.specs.declared.command.Edit.TheVariants as edits;
ghost use Rattle.command_set.specs.declared.command.Query.TheVariants as queries;
ghost use Rattle.command_set.specs.declared.command.Shoot.TheVariants as shoots;
ghost use Rattle.slant_ray.specs.declared.ray.SlantRay.{SlantRay};
ghost use Rattle.slant_ray.specs.Rays.{IsChecked as IsCheckedSlant};
ghost use Rattle.mged_words.specs.Commands.{command_of, entry_of, ray_of, solid_object};
ghost use Rattle.mged_words.specs.OneLine.{AreMembers, AreNames, AreNumbers, AreSlantNumbers, AreViewNumbers, IsAtom, Member, direction_word, line_of, member_words, new_entry};
ghost use Rattle.mged_words.specs.Order.{TellsFirst, TellsNames, names_of_line, wanted_of_line};
ghost use Rattle.mged_words.specs.declared.script.TheConstants.{LINE_COUNT, LINE_SIZE, SCRIPT_SIZE};

/// The limits of a script are these numbers. This law is what refuses another constant.
pub fn limit_laws()
    ensures script { SCRIPT_SIZE ≡ 4194304 }
    ensures lines { LINE_COUNT ≡ 65536 }
    ensures line { LINE_SIZE ≡ 65536 }
{}

/// A line that has the form of a command is refused for the first of its names that is none, whatever its numbers, its
/// ray, its view and its solid are; else for the first of its numbers and values that is out of its range, whatever its
/// ray, its view and its solid are; else for these. Where nothing of it is refused it is read as a command.
pub fn order_laws()
    ensures order { (line : List ℕ) → TellsFirst (command_of line) (wanted_of_line line) }
    ensures names { (line : List ℕ) → TellsNames (command_of line) (names_of_line line) }
{}

/// Each command of names alone has a line that reads as it: its word, and the names behind it.
pub fn each_has_a_line()
    ensures region { (name : List ℕ) (first : Member) (rest : List Member) → IsName name → AreMembers (first ∷ rest) → command_of (line_of (codes "r") (name ∷ member_words (first ∷ rest))) ≡ command.Edit (edits.Region name (map new_entry (first ∷ rest))) }
    ensures group { (name first : List ℕ) (rest : List (List ℕ)) → AreNames (name ∷ first ∷ rest) → command_of (line_of (codes "g") (name ∷ first ∷ rest)) ≡ command.Edit (edits.Group name (map (entry_of U) (first ∷ rest))) }
    ensures remove { (name first : List ℕ) (rest : List (List ℕ)) → AreNames (name ∷ first ∷ rest) → command_of (line_of (codes "rm") (name ∷ first ∷ rest)) ≡ command.Edit (edits.Remove name (first ∷ rest)) }
    ensures kill { (first : List ℕ) (rest : List (List ℕ)) → AreNames (first ∷ rest) → command_of (line_of (codes "kill") (first ∷ rest)) ≡ command.Edit (edits.Kill (first ∷ rest)) }
    ensures rename { (old new : List ℕ) → IsName old → IsName new → command_of (line_of (codes "mvall") (old ∷ new ∷ [])) ≡ command.Edit (edits.RenameAll old new) }
    ensures names { command_of (line_of (codes "ls") []) ≡ command.Query queries.Names }
    ensures list { (first : List ℕ) (rest : List (List ℕ)) → AreNames (first ∷ rest) → command_of (line_of (codes "l") (first ∷ rest)) ≡ command.Query (queries.List (first ∷ rest)) }
    ensures tree { (first : List ℕ) (rest : List (List ℕ)) → AreNames (first ∷ rest) → command_of (line_of (codes "tree") (first ∷ rest)) ≡ command.Query (queries.Tree (first ∷ rest)) }
    ensures save { (file : List ℕ) → IsName file → command_of (line_of (codes "save") (file ∷ [])) ≡ command.Query (queries.Save file) }
{}

/// Each command of names and numbers or of one value has a line that reads as it, however its numbers are written.
pub fn each_with_numbers_has_a_line()
    ensures make { (name : List ℕ) (kind : SolidKind) (words : List (List ℕ)) (numbers : List ℤ) (solid : Solid) → IsName name → length words ≡ number_count kind → AreNumbers (lists.Solid kind) words numbers → solid_made kind (map (λ (n : ℤ). Some n) numbers) ≡ Ok solid → command_of (line_of (codes "in") (name ∷ kind_word kind ∷ words)) ≡ command.Edit (edits.Make name (solid_object solid)) }
    ensures shot { (x y z : List ℕ) (origin : V3) (dir : Dir) (first : List ℕ) (rest : List (List ℕ)) → AreNumbers lists.Point (x ∷ y ∷ z ∷ []) (origin.x ∷ origin.y ∷ origin.z ∷ []) → IsWithin WORLD origin → AreNames (first ∷ rest) → command_of (line_of (codes "nirt") (x ∷ y ∷ z ∷ direction_word dir ∷ first ∷ rest)) ≡ command.Query (queries.Shot (ray_of origin dir) (first ∷ rest)) }
    ensures picture { (file x y z cell w h : List ℕ) (view : View) (first : List ℕ) (rest : List (List ℕ)) → IsName file → AreViewNumbers x y z cell w h view → IsChecked view → AreNames (first ∷ rest) → command_of (line_of (codes "rt") (file ∷ direction_word view.dir ∷ x ∷ y ∷ z ∷ cell ∷ w ∷ h ∷ first ∷ rest)) ≡ command.Shoot (shoots.Picture file view (first ∷ rest)) }
    ensures check { (x y z cell w h : List ℕ) (view : View) (first : List ℕ) (rest : List (List ℕ)) → AreViewNumbers x y z cell w h view → IsChecked view → AreNames (first ∷ rest) → command_of (line_of (codes "rtcheck") (direction_word view.dir ∷ x ∷ y ∷ z ∷ cell ∷ w ∷ h ∷ first ∷ rest)) ≡ command.Shoot (shoots.Check view (first ∷ rest)) }
    ensures slant { (x y z dx dy dz : List ℕ) (ray : SlantRay) (first : List ℕ) (rest : List (List ℕ)) → AreSlantNumbers x y z dx dy dz ray → IsCheckedSlant ray → AreNames (first ∷ rest) → command_of (line_of (codes "nirtd") (x ∷ y ∷ z ∷ dx ∷ dy ∷ dz ∷ first ∷ rest)) ≡ command.Query (queries.Slant ray (first ∷ rest)) }
    ensures area { (x y z cell w h : List ℕ) (view : View) (first : List ℕ) (rest : List (List ℕ)) → AreViewNumbers x y z cell w h view → IsChecked view → AreNames (first ∷ rest) → command_of (line_of (codes "rtarea") (direction_word view.dir ∷ x ∷ y ∷ z ∷ cell ∷ w ∷ h ∷ first ∷ rest)) ≡ command.Shoot (shoots.Area view (first ∷ rest)) }
    ensures edge { (file x y z cell w h : List ℕ) (view : View) (first : List ℕ) (rest : List (List ℕ)) → IsName file → AreViewNumbers x y z cell w h view → IsChecked view → AreNames (first ∷ rest) → command_of (line_of (codes "rtedge") (file ∷ direction_word view.dir ∷ x ∷ y ∷ z ∷ cell ∷ w ∷ h ∷ first ∷ rest)) ≡ command.Shoot (shoots.Edge file view (first ∷ rest)) }
    ensures place { (comb member : List ℕ) (words : List (List ℕ)) (placement : Placement) → IsName comb → IsName member → placement_read (numbers_as lists.Matrix words) ≡ Some placement → command_of (line_of (codes "place") (comb ∷ member ∷ words)) ≡ command.Edit (edits.Place comb member placement) }
    ensures set { (name key value : List ℕ) → IsName name → IsTrue (is_setting key value) → IsAtom value → command_of (line_of (codes "cattr") (name ∷ key ∷ value ∷ [])) ≡ command.Edit (edits.Set name (record { key = key; value = value })) }
{}
