//! The first fault of a builder, and the store where it has none.

ghost use Rattle.std.specs.Prelude.{◌≡◌, ◌⊎◌, ◌↔◌, IsTrue, IfOk, IfErr, None, Some};
ghost use Rattle.hir_forest.specs.Parents.{HasParents};
ghost use Rattle.hir_validate.specs.Nodes.{graph};
ghost use Rattle.hir_store_core.specs.PatLinks.{HasPatLinks};
ghost use Rattle.hir_source_map.specs.Additions.{finish_sources};
ghost use Rattle.hir_store.specs.Building.{nodes_of, building_of, contents_of, roots_or_none, HasRoots, has_exprs, finish_fault};

use crate::builder::{ExpressionStoreBuilder, Refused};
use hir_collections::LazyBox;
use hir_forest::{Parents, Root};
use hir_source_map::ExpressionStoreSourceMap;
use hir_store_core::{ExpressionStore, KeptParts, PatLinks};
use hir_validate::{FinishFault, validated_parents};

impl ExpressionStoreBuilder {
    /// Returns whether a list of roots was begun, or nothing needs one.
    fn has_roots(&self) -> bool
        ensures { IsTrue result ↔ HasRoots (building_of self.now) }
    {
        self.roots.is_some()
            || (self.exprs.is_empty()
                && self.pats.is_empty()
                && self.bindings.is_empty()
                && self.labels.is_empty())
    }

    /// Returns the roots that were listed.
    fn listed_roots(&self) -> &[Root]
        ensures { result.now ≡ roots_or_none self.now.roots }
    {
        match &self.roots {
            Some(roots) => roots.as_slice(),
            None => &[],
        }
    }

    /// Returns the parents of the nodes, where these have no fault, and else the first fault, or `Memory`.
    fn validated_parents(&self) -> Result<Parents, FinishFault>
        ensures ok { IfOk result (λ parents. finish_fault (building_of self.now) None
            × HasParents (graph (nodes_of self.now)) parents.parents) }
        ensures err { IfErr result (λ fault. fault ≡ FinishFault.Memory
            ⊎ finish_fault (building_of self.now) (Some fault)) }
    {
        if !self.has_roots() {
            return Err(FinishFault::NoRoots);
        }
        validated_parents(self.alloc, &self.nodes(), self.listed_roots())
    }

    /// Returns what a store of the nodes keeps, where these have no fault, and else the first fault, or
    /// `Memory`.
    fn validate(&self) -> Result<LazyBox<KeptParts>, FinishFault>
        ensures ok { IfOk result (λ kept. finish_fault (building_of self.now) None
            × HasParents (graph (nodes_of self.now)) kept.parents.parents
            × HasPatLinks (nodes_of self.now).pats kept.links) }
        ensures err { IfErr result (λ fault. fault ≡ FinishFault.Memory
            ⊎ finish_fault (building_of self.now) (Some fault)) }
    {
        let parents = self.validated_parents()?;
        let Ok(links) = PatLinks::of(self.alloc, self.pats.as_slice()) else {
            return Err(FinishFault::Memory);
        };
        match LazyBox::of(self.alloc, KeptParts { parents, links }) {
            Ok(kept) => Ok(kept),
            Err(_) => Err(FinishFault::Memory),
        }
    }

    /// Returns the store of the builder's nodes and roots, and its source map, where these have no fault, and
    /// else the first fault, or `Memory` where an allocation fails, and the builder as it was.
    ///
    /// Nodes under no root are accepted and kept; so are a binding that several patterns name, and labels and
    /// lifetimes that several nodes name. Owners, hygiene, blocks and sources are not checked. The store
    /// keeps its expression part, which is all but types and lifetimes, exactly where an expression, a label,
    /// a pattern or a binding exists, and the source map keeps its own exactly there and where an expansion
    /// or a diagnostic exists; a part that isn't kept is dropped with its entries. It takes time in the
    /// number of nodes, edges and roots. It recurses only into associated type bindings that are nested in
    /// one path.
    pub fn finish(self) -> Result<(ExpressionStore, ExpressionStoreSourceMap), Refused>
        ensures ok { IfOk result (λ made. (made.0 ≡ contents_of (building_of self))
            × finish_fault (building_of self) None) }
        ensures source_map { IfOk result (λ made. made.1
            ≡ finish_sources (has_exprs (nodes_of self)) self.source_map) }
        ensures err { IfErr result (λ refused. (refused.builder ≡ self)
            × (refused.fault ≡ FinishFault.Memory ⊎ finish_fault (building_of self) (Some refused.fault))) }
    {
        let mut builder = self;
        let kept = match builder.validate() {
            Ok(kept) => kept,
            Err(fault) => return Err(Refused { fault, builder }),
        };
        match builder.take_owners() {
            Ok(owners) => Ok(builder.into_store(owners, kept)),
            Err(_) => Err(Refused {
                fault: FinishFault::Memory,
                builder,
            }),
        }
    }
}
