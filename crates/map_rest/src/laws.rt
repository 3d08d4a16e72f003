//! What is left of a map at rest, and what an audit finds of it.
ghost use Rattle.std.specs.Prelude.{ℕ, List};
ghost use Rattle.plain_audit.specs.Audits.{IsAudit};
ghost use Rattle.plain_audit.specs.plain_state.Fits.{AllFit};
ghost use Rattle.plain_audit.specs.plain_state.Lawful.{Lawful};
ghost use Rattle.plain_audit.specs.plain_state.State.{Plain};
ghost use Rattle.map_law.specs.Law.{MapLaw};
ghost use Rattle.map_law.specs.Nodes.{IsNode, TreeAt, root};
ghost use Rattle.map_law.specs.Promises.{Settled};
ghost use Rattle.map_law.specs.declared.view.View.{View};
ghost use Rattle.map_law.specs.map_trees.Trees.{Tree};
ghost use Rattle.map_rest.specs.Rest.{FindsTree, Rests};

use plain_audit::Audit;

/// A state in which nothing but the root cell holds anything, nothing is deferred or dying, and each object that lives
/// is referred to, is settled, where all objects are nodes.
pub fn maps_at_rest_are_settled()
    ensures { (c : ℕ) (p : Plain) → Lawful p → AllFit IsNode p → Rests c p → Settled c p }
{}

/// An audit of a map at rest finds as many objects as the map has keys, nothing that is deferred, and nothing that is
/// kept by a cycle, whatever nodes weigh.
pub fn audits_find_the_tree()
    ensures { (c : ℕ) (p : Plain) (views : List View) → Lawful p → MapLaw c p views
        → AllFit IsNode p → Rests c p → (t : Tree) → TreeAt p (root p c) t
        → (weight : List ℕ → ℕ) (ranks : List ℕ) (found : Audit) → IsAudit weight ranks p found
        → FindsTree t found }
{}
