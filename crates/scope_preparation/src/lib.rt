// A scope is made ready before a table is walked through: the number of xml stands on its path, and the declarations are linked.
#![tactic(auto)]

ghost use Rattle.std.specs.Prelude.{List, [], ◌∷◌, ℕ, ◌≤◌, length};
ghost use Rattle.stacks.specs.Stacks.{PATH};
ghost use Rattle.beginning.specs.Ground.{Unlinked, Ground};
ghost use Rattle.unsettled.specs.Walkable.{Prepared};
ghost use Rattle.scope_preparation.specs.Arrays.{Cleared};

use rules::NameId;

// Prepares the notes and the path, where a lookup of xml has begun.
pub fn prepare(table: &[u32], xml: NameId, notes: &mut [u16], path: &mut [u16])
    requires unlinked { Unlinked table.now notes.old }
    requires in_bounds { PATH ≤ length path.old }
    ensures { (pool tops : List ℕ) (r : ℕ) → Ground table.now pool r notes.old xml.0 (120 ∷ 109 ∷ 108 ∷ []) → Cleared table.now tops path.old → Prepared table.now pool notes.new tops path.new }
{
    stacks::set_xml(path, xml);
    scopes::link_all(table, notes);
}
