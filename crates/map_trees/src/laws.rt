//! What holds of balanced trees and of the maps that they spell.
ghost use Rattle.std.specs.Prelude.{◌≡◌, ◌≢◌, ◌==◌, ◌+◌, ◌^◌, ◌<◌, ◌≤◌, ℕ, suc, if◌then◌else◌, nat_lt, length, List, [], Option, None, Some};
ghost use Rattle.map_trees.specs.Trees.{Ascends, Balanced, Pair, Shaped, Tree, height, node, pair, pairs};
ghost use Rattle.map_trees.specs.Maps.{changed, get, next, or_else, or_zero, put, replayed, take};
ghost use Rattle.map_trees.specs.Balance.{fewest, join};
ghost use Rattle.map_trees.specs.Counting.{AllBumps, bumps};
ghost use Rattle.map_trees.specs.Promises.{Alters, Joined, JoinsPairs};

use crate::change::{Change, Entry};

/// A change of a key keeps a tree a search tree that is balanced, and makes of its list what it makes of a map. The
/// subtrees of such a tree are such trees.
pub fn changes_keep_trees_shaped()
    ensures change { (k : ℕ) (change : Change) (t : Tree) → Shaped t → Alters k change t }
    ensures parts { (k v h : ℕ) (l r : Tree) → Shaped (node k v h l r) → Shaped l × Shaped r }
{}

/// Two balanced trees whose heights differ by at most 2 are joined with a pair between them: the pairs stand in order,
/// and the tree is balanced.
pub fn joins_are_balanced()
    ensures pairs { (k v : ℕ) (l r : Tree) → JoinsPairs k v l r }
    ensures balanced { (k v : ℕ) (l r : Tree) → Balanced l → Balanced r
        → height l ≤ suc (suc (height r)) → height r ≤ suc (suc (height l))
        → Joined l r (join k v l r) }
{}

/// At a node a key's value is that of the left subtree, of the right one, or the node's own; and so is the least pair
/// from a key on, where the node's own pair counts if the left subtree has none.
pub fn keys_lead_one_way()
    ensures get { (k a d h : ℕ) (l r : Tree) → Shaped (node a d h l r)
        → get k (pairs (node a d h l r)) ≡ (if nat_lt k a
        then get k (pairs l)
        else (if a == k then Some d else get k (pairs r))) }
    ensures next { (k a d h : ℕ) (l r : Tree) (best : Option Pair) → Shaped (node a d h l r)
        → or_else (next k (pairs (node a d h l r))) best ≡ (if nat_lt a k
        then or_else (next k (pairs r)) best
        else or_else (next k (pairs l)) (Some (pair a d))) }
{}

/// A value that was put is there, a key that was taken isn't, and no other key's value changes. Keys go on to ascend.
pub fn changes_are_of_one_key()
    ensures put { (k v : ℕ) (m : List Pair) → get k (put k v m) ≡ Some v }
    ensures take { (k : ℕ) (m : List Pair) → Ascends m → get k (take k m) ≡ None }
    ensures other { (k j : ℕ) (change : Change) (m : List Pair) → k ≢ j
        → get j (changed k change m) ≡ get j m }
    ensures ascends { (k : ℕ) (change : Change) (m : List Pair) → Ascends m
        → Ascends (changed k change m) }
{}

/// Where all entries add one, a key's number is how many entries are of it.
pub fn bumps_are_counted()
    ensures { (es : List Entry) → AllBumps es → length es < 2 ^ 64 → (k : ℕ)
        → or_zero (get k (replayed [] es)) ≡ bumps k es }
{}

/// A balanced tree of a height has so many keys at least, and with at most 65,536 keys at most 22 levels.
pub fn few_keys_few_levels()
    ensures fewest { (t : Tree) → Balanced t → fewest (height t) ≤ length (pairs t) }
    ensures levels { (t : Tree) → Balanced t → length (pairs t) ≤ 65536 → height t ≤ 22 }
{}
