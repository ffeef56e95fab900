//! Theorems that a reader relies on. Each is a function with no body to run: its contract is the theorem.
ghost use Rattle.std.specs.Prelude.{◌≡◌, None};
ghost use Rattle.hir_pretty_nodes.specs.Prelude.{NodeId, PrintEnv, pieces, pieces_step, DocsDecrease};
ghost use Rattle.hir_store_core.specs.Contents.{Contents, contents_fault};

/// The doc pieces of a node of an accepted store are those of its documents.
pub fn pieces_are_their_step()
    ensures { (c : Contents) → contents_fault c None → (s : PrintEnv) → s.nodes ≡ c.nodes → (n : NodeId)
        → pieces s n ≡ pieces_step s (pieces s) n }
{
    hir_store_core::laws::rank_decreases();
    hir_store_core::laws::parents_are_in_range();
}

/// What is printed inside a node of an accepted store has a lower rank than the node.
pub fn docs_decrease()
    ensures { (c : Contents) → contents_fault c None → (s : PrintEnv) → s.nodes ≡ c.nodes → DocsDecrease s }
{
    hir_store_core::laws::rank_decreases();
    hir_store_core::laws::parents_are_in_range();
}
