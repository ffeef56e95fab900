//! Building a store: nodes and roots are added, and `finish` tests them once.

ghost use Rattle.std.specs.Prelude.{◌≡◌, ◌≤◌, [], ◌∷◌, ◌++◌, length, Err, None, IfOk, IfErr, OnOk, OnErr};
ghost use Rattle.std.specs.FinMap as map;
ghost use Rattle.hir_path.specs.Keys.{expr_or_pat_code};
ghost use Rattle.hir_source_map.specs.Additions.{finish_sources};
ghost use Rattle.hir_store.specs.Building.{nodes_of, building_of, empty_builder, contents_of, has_exprs, kept_side_tables, roots_or_none, finish_fault, and_root, some_roots};
ghost use Rattle.hir_validate.specs.Faults.{nodes_in};
ghost use Rattle.hir_validate.specs.Nodes.{graph, sizes_of};
ghost use Rattle.hir_forest.specs.Parents.{HasParents};
ghost use Rattle.hir_store_core.specs.PatLinks.{HasPatLinks};
ghost use Rattle.hir_validate.specs.Sizes.{Few};

use hir_base::{BlockId, HygieneId};
use hir_collections::{Arena, ArenaFault, LazyBox, MOST_ITEMS, Seq, Table};
use hir_forest::Root;
use hir_node::{
    Binding, BindingId, BindingKind, Expr, ExprId, ExprKind, ExprOrPatId, Label, LabelId,
    LabelKind, LifetimeRef, LifetimeRefId, LifetimeRefKind, Pat, PatId, PatKind, TypeRef,
    TypeRefId, TypeRefKind,
};
use hir_source_map::{ExpressionStoreSourceMap, SourceMapBuilder};
use hir_store_core::{ExpressionStore, KeptParts, RootList, SideTables};
use hir_validate::{FinishFault, NodeSlices, Nodes};
use std::alloc::{AllocError, AllocFailed, Global};
use std::fmt::{self, Display};
use std::mem::replace;

/// Nodes and roots that are not tested yet.
#[derive(PartialEq, Eq)]
pub struct ExpressionStoreBuilder {
    pub exprs: Arena<ExprKind, Expr>,
    pub pats: Arena<PatKind, Pat>,
    pub bindings: Arena<BindingKind, Binding>,
    pub labels: Arena<LabelKind, Label>,
    pub lifetimes: Arena<LifetimeRefKind, LifetimeRef>,
    pub types: Arena<TypeRefKind, TypeRef>,
    /// The closure, coroutine or anonymous constant that owns a binding. A binding that the body itself owns
    /// has no entry.
    pub binding_owners: Table<BindingId, ExprId>,
    pub(crate) hygiene: LazyBox<Table<ExprOrPatId, HygieneId>>,
    pub(crate) block_scopes: LazyBox<Seq<BlockId>>,
    pub(crate) source_map: SourceMapBuilder,
    pub(crate) roots: Option<RootList>,
    pub(crate) alloc: Global,
}

/// Drops its parts one after the other. This `impl` exists so that the drop is proved once, and is a call
/// where a value is dropped.
impl Drop for ExpressionStoreBuilder {
    fn drop(self) {
        let ExpressionStoreBuilder {
            exprs,
            pats,
            bindings,
            labels,
            lifetimes,
            types,
            binding_owners,
            hygiene,
            block_scopes,
            source_map,
            roots,
            alloc,
        } = self;
    }
}

/// A builder that was refused, as it was, with its first fault.
#[derive(Drop, PartialEq, Eq)]
#[derive_where(Debug)]
pub struct Refused {
    pub fault: FinishFault,
    #[derive_where(skip(Debug))]
    pub builder: ExpressionStoreBuilder,
}

/// Writes the text of its fault.
impl Display for Refused {
    ghost use Rattle.hir_validate.specs.contracts.fault.FinishFaultDisplay.TheImpl as finish;

    ghost output = { λ refused. finish.ghosts.output refused.fault };

    fn fmt<W: fmt::Write>(&self, f: &mut fmt::Formatter<W>) -> fmt::Result {
        Display::fmt(&self.fault, f)
    }
}

impl std::error::Error for Refused {}

impl ExpressionStoreBuilder {
    /// Returns an empty builder, which allocates from `alloc` once something is added.
    pub fn new(alloc: Global) -> ExpressionStoreBuilder
        ensures { result ≡ empty_builder alloc }
    {
        ExpressionStoreBuilder {
            exprs: Arena::new(alloc),
            pats: Arena::new(alloc),
            bindings: Arena::new(alloc),
            labels: Arena::new(alloc),
            lifetimes: Arena::new(alloc),
            types: Arena::new(alloc),
            binding_owners: Table::new(alloc),
            hygiene: LazyBox::new(alloc),
            block_scopes: LazyBox::new(alloc),
            source_map: SourceMapBuilder::new(alloc),
            roots: None,
            alloc,
        }
    }

    /// Adds an expression and returns its id, the number of expressions before it.
    ///
    /// Fails with `Full` when `MOST_ITEMS` expressions exist, and only then, and with `Memory` where an
    /// allocation fails. Either gives the expression back and leaves the builder as it was. So do the other
    /// calls that add something.
    pub fn alloc_expr(&mut self, expr: Expr) -> Result<ExprId, (ArenaFault, Expr)>
        ensures ok { IfOk result (λ id. (id ≡ length self.old.exprs)
            × (self.new ≡ record self.old { exprs = self.old.exprs ++ expr ∷ [] })) }
        ensures err { IfErr result (λ refused. (refused.1 ≡ expr) × (self.new ≡ self.old)) }
        ensures full { IfErr result (λ refused. refused.0 ≡ ArenaFault.Full
            → length self.old.exprs ≡ MOST_ITEMS) }
        ensures full_only { length self.old.exprs ≡ MOST_ITEMS → result ≡ Err (ArenaFault.Full, expr) }
    {
        self.exprs.alloc(expr)
    }

    /// Adds a pattern and returns its id, the number of patterns before it.
    pub fn alloc_pat(&mut self, pat: Pat) -> Result<PatId, (ArenaFault, Pat)>
        ensures ok { IfOk result (λ id. (id ≡ length self.old.pats)
            × (self.new ≡ record self.old { pats = self.old.pats ++ pat ∷ [] })) }
        ensures err { IfErr result (λ refused. (refused.1 ≡ pat) × (self.new ≡ self.old)) }
        ensures full { IfErr result (λ refused. refused.0 ≡ ArenaFault.Full
            → length self.old.pats ≡ MOST_ITEMS) }
        ensures full_only { length self.old.pats ≡ MOST_ITEMS → result ≡ Err (ArenaFault.Full, pat) }
    {
        self.pats.alloc(pat)
    }

    /// Adds a binding and returns its id, the number of bindings before it.
    // Always inlined, so that its name goes into the arena without a copy on the way: see `with_zeros` of
    // `hir_base`.
    #[inline(always)]
    pub fn alloc_binding(&mut self, binding: Binding) -> Result<BindingId, (ArenaFault, Binding)>
        ensures ok { IfOk result (λ id. (id ≡ length self.old.bindings)
            × (self.new ≡ record self.old { bindings = self.old.bindings ++ binding ∷ [] })) }
        ensures err { IfErr result (λ refused. (refused.1 ≡ binding) × (self.new ≡ self.old)) }
        ensures full { IfErr result (λ refused. refused.0 ≡ ArenaFault.Full
            → length self.old.bindings ≡ MOST_ITEMS) }
        ensures full_only { length self.old.bindings ≡ MOST_ITEMS → result ≡ Err (ArenaFault.Full, binding) }
    {
        self.bindings.alloc(binding)
    }

    /// Adds a label and returns its id, the number of labels before it.
    pub fn alloc_label(&mut self, label: Label) -> Result<LabelId, (ArenaFault, Label)>
        ensures ok { IfOk result (λ id. (id ≡ length self.old.labels)
            × (self.new ≡ record self.old { labels = self.old.labels ++ label ∷ [] })) }
        ensures err { IfErr result (λ refused. (refused.1 ≡ label) × (self.new ≡ self.old)) }
        ensures full { IfErr result (λ refused. refused.0 ≡ ArenaFault.Full
            → length self.old.labels ≡ MOST_ITEMS) }
        ensures full_only { length self.old.labels ≡ MOST_ITEMS → result ≡ Err (ArenaFault.Full, label) }
    {
        self.labels.alloc(label)
    }

    /// Adds a type and returns its id, the number of types before it.
    pub fn alloc_type(&mut self, type_ref: TypeRef) -> Result<TypeRefId, (ArenaFault, TypeRef)>
        ensures ok { IfOk result (λ id. (id ≡ length self.old.types)
            × (self.new ≡ record self.old { types = self.old.types ++ type_ref ∷ [] })) }
        ensures err { IfErr result (λ refused. (refused.1 ≡ type_ref) × (self.new ≡ self.old)) }
        ensures full { IfErr result (λ refused. refused.0 ≡ ArenaFault.Full
            → length self.old.types ≡ MOST_ITEMS) }
        ensures full_only { length self.old.types ≡ MOST_ITEMS → result ≡ Err (ArenaFault.Full, type_ref) }
    {
        self.types.alloc(type_ref)
    }

    /// Adds a lifetime and returns its id, the number of lifetimes before it.
    pub fn alloc_lifetime(
        &mut self,
        lifetime: LifetimeRef,
    ) -> Result<LifetimeRefId, (ArenaFault, LifetimeRef)>
        ensures ok { IfOk result (λ id. (id ≡ length self.old.lifetimes)
            × (self.new ≡ record self.old { lifetimes = self.old.lifetimes ++ lifetime ∷ [] })) }
        ensures err { IfErr result (λ refused. (refused.1 ≡ lifetime) × (self.new ≡ self.old)) }
        ensures full { IfErr result (λ refused. refused.0 ≡ ArenaFault.Full
            → length self.old.lifetimes ≡ MOST_ITEMS) }
        ensures full_only { length self.old.lifetimes ≡ MOST_ITEMS
            → result ≡ Err (ArenaFault.Full, lifetime) }
    {
        self.lifetimes.alloc(lifetime)
    }

    /// Begins an empty list of roots, unless one was begun.
    pub fn begin_roots(&mut self)
        ensures { self.new ≡ record self.old { roots = some_roots self.old.roots } }
    {
        if self.roots.is_none() {
            self.roots = Some(RootList::new(self.alloc));
        }
    }

    /// Lists a root, with the lengths of the arenas of expressions, patterns and bindings at this moment as
    /// its ends; it begins a list unless one was begun. Where an allocation fails, the builder is as it was
    /// and the error gives the id back.
    pub fn push_root(&mut self, expr: ExprId) -> Result<(), AllocFailed<ExprId>>
        ensures ok { OnOk result (self.new
            ≡ record self.old { roots = and_root (building_of self.old) expr }) }
        ensures err { OnErr result (self.new ≡ self.old) }
        ensures value_returned { IfErr result (λ failed. failed.value ≡ expr) }
    {
        let root = Root {
            node: expr.into_raw(),
            ends: self.nodes().ends(),
        };
        match &mut self.roots {
            Some(roots) => match roots.push(root) {
                Ok(()) => Ok(()),
                Err(_) => Err(AllocFailed { value: expr }),
            },
            None => {
                let mut roots = RootList::new(self.alloc);
                match roots.push(root) {
                    Ok(()) => {
                        self.roots = Some(roots);
                        Ok(())
                    }
                    Err(_) => Err(AllocFailed { value: expr }),
                }
            }
        }
    }

    /// Sets the hygiene of the path that the expression or the pattern is, in place of an earlier one.
    ///
    /// Where the allocation of one more entry fails, the error gives id and hygiene back and the builder is
    /// as it was.
    pub fn set_hygiene(
        &mut self,
        id: ExprOrPatId,
        hygiene: HygieneId,
    ) -> Result<(), AllocFailed<(ExprOrPatId, HygieneId)>>
        ensures ok { OnOk result (self.new
            ≡ record self.old { hygiene = map.insert self.old.hygiene (expr_or_pat_code id) hygiene }) }
        ensures err { OnErr result (self.new ≡ self.old) }
        ensures value_returned { IfErr result (λ failed. failed.value ≡ (id, hygiene)) }
    {
        match self.hygiene.get_or_alloc() {
            Ok(table) => table.put(id, hygiene),
            Err(_) => Err(AllocFailed {
                value: (id, hygiene),
            }),
        }
    }

    /// Lists a block that may hold items, after the others. Where an allocation fails, the builder is as it
    /// was and the error gives the block back.
    pub fn add_block_scope(&mut self, block: BlockId) -> Result<(), AllocFailed<BlockId>>
        ensures ok { OnOk result (self.new
            ≡ record self.old { block_scopes = self.old.block_scopes ++ block ∷ [] }) }
        ensures err { OnErr result (self.new ≡ self.old) }
        ensures value_returned { IfErr result (λ failed. failed.value ≡ block) }
    {
        match self.block_scopes.get_or_alloc() {
            Ok(blocks) => blocks.push(block),
            Err(_) => Err(AllocFailed { value: block }),
        }
    }

    /// Returns the nodes, borrowed.
    pub(crate) fn nodes(&self) -> NodeSlices<'_>
        ensures nodes { nodes_in result ≡ nodes_of self.now }
        ensures few { Few (sizes_of (nodes_in result)) }
    {
        NodeSlices {
            exprs: self.exprs.as_slice(),
            pats: self.pats.as_slice(),
            types: self.types.as_slice(),
            bindings: self.bindings.as_slice(),
            labels: self.labels.as_slice(),
            lifetimes: self.lifetimes.as_slice(),
        }
    }

    /// Returns whether an expression, a label, a pattern or a binding exists.
    fn has_exprs(&self) -> bool
        ensures { result ≡ has_exprs (nodes_of self.now) }
    {
        !self.exprs.is_empty()
            || !self.labels.is_empty()
            || !self.pats.is_empty()
            || !self.bindings.is_empty()
    }

    /// Moves the owners of bindings out of the builder, to where a store has them.
    ///
    /// Returns an error where an allocation fails: nothing has changed then.
    pub(crate) fn take_owners(&mut self) -> Result<LazyBox<Table<BindingId, ExprId>>, AllocError>
        ensures owners { IfOk result (λ owners. owners ≡ self.old.binding_owners) }
        ensures ok { OnOk result (self.new ≡ record self.old { binding_owners = map.empty }) }
        ensures err { OnErr result (self.new ≡ self.old) }
    {
        if self.binding_owners.is_empty() {
            return Ok(LazyBox::new(self.alloc));
        }
        let owners = replace(&mut self.binding_owners, Table::new(self.alloc));
        match LazyBox::of(self.alloc, owners) {
            Ok(owners) => Ok(owners),
            Err(failed) => {
                self.binding_owners = failed.value;
                Err(AllocError)
            }
        }
    }

    /// Returns the store and the source map of a builder without a fault, with the owners of bindings and
    /// what follows from its nodes.
    pub(crate) fn into_store(
        self,
        owners: LazyBox<Table<BindingId, ExprId>>,
        kept: LazyBox<KeptParts>,
    ) -> (ExpressionStore, ExpressionStoreSourceMap)
        requires sound { finish_fault (building_of self) None }
        requires parents { HasParents (graph (nodes_of self)) kept.parents.parents }
        requires links { HasPatLinks (nodes_of self).pats kept.links }
        ensures store { result.0 ≡ contents_of (building_of (record self { binding_owners = owners })) }
        ensures source_map { result.1 ≡ finish_sources (has_exprs (nodes_of self)) self.source_map }
    {
        let keeps_exprs = self.has_exprs();
        let ExpressionStoreBuilder {
            exprs,
            pats,
            bindings,
            labels,
            lifetimes,
            types,
            binding_owners: _,
            hygiene,
            block_scopes,
            source_map,
            roots,
            alloc,
        } = self;
        let nodes = Nodes {
            exprs,
            pats,
            types,
            bindings,
            labels,
            lifetimes,
        };
        let side_tables = SideTables {
            owners,
            hygiene,
            blocks: block_scopes,
        };
        let store = ExpressionStore::new(
            nodes,
            roots_or_none(alloc, roots),
            kept_side_tables(alloc, keeps_exprs, side_tables),
            kept,
        );
        (store, source_map.finish(keeps_exprs))
    }
}

/// Returns the side tables, where they are kept; else empty ones.
fn kept_side_tables(alloc: Global, kept: bool, side_tables: SideTables) -> SideTables
    ensures { result ≡ kept_side_tables kept side_tables }
{
    if kept {
        side_tables
    } else {
        SideTables::new(alloc)
    }
}

/// Returns the listed roots; none where no list was begun.
fn roots_or_none(alloc: Global, roots: Option<RootList>) -> RootList
    ensures { result ≡ roots_or_none roots }
{
    match roots {
        Some(roots) => roots,
        None => RootList::new(alloc),
    }
}
