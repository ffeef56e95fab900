//! What a builder keeps beside nodes. An entry is made of a number: its source is at the place of that
//! number in file 0, and the ids in it are those of that number.
use crate::build::{BuildFault, taken};
use hir_base::{
    AstPtr, BlockId, HirFileId, HygieneId, InFile, MacroCallId, SyntaxContext, SyntaxNodePtr,
    TextRange,
};
use hir_collections::Idx;
use hir_node::ExprOrPatId;
use hir_store::{ExpressionStoreBuilder, ExpressionStoreDiagnostics, MissingBodyItemKind};

/// A call that adds an entry: for each map of sources one, and for the other tables and lists.
#[derive(Clone, Copy)]
pub enum Entry {
    Expr,
    ExprBack,
    Pat,
    PatBack,
    Label,
    LabelBack,
    Type,
    TypeBack,
    Lifetime,
    LifetimeBack,
    FieldBack,
    PatFieldBack,
    Expansion,
    Definition,
    Diagnostic,
    Hygiene,
    Block,
    Owner,
}

/// One of each kind.
pub const ENTRIES: [Entry; 18] = [
    Entry::Expr,
    Entry::ExprBack,
    Entry::Pat,
    Entry::PatBack,
    Entry::Label,
    Entry::LabelBack,
    Entry::Type,
    Entry::TypeBack,
    Entry::Lifetime,
    Entry::LifetimeBack,
    Entry::FieldBack,
    Entry::PatFieldBack,
    Entry::Expansion,
    Entry::Definition,
    Entry::Diagnostic,
    Entry::Hygiene,
    Entry::Block,
    Entry::Owner,
];

/// The node of one byte at this place.
fn node(place: u32) -> InFile<SyntaxNodePtr> {
    let range = TextRange {
        start: place,
        end: place.saturating_add(1),
    };
    InFile {
        file_id: HirFileId::from_raw(0),
        value: SyntaxNodePtr { kind: 7, range },
    }
}

/// The source of one byte at this place.
fn source<K>(place: u32) -> InFile<AstPtr<K>> {
    let InFile { file_id, value } = node(place);
    InFile {
        file_id,
        value: AstPtr::new(value),
    }
}

/// The expression of this number, as what a source became.
fn expr(number: u32) -> ExprOrPatId {
    ExprOrPatId::ExprId(Idx::from_raw(number))
}

/// The pattern of this number, as what a source became.
fn pat(number: u32) -> ExprOrPatId {
    ExprOrPatId::PatId(Idx::from_raw(number))
}

/// The hygiene of this expansion.
fn in_expansion(number: u32) -> HygieneId {
    HygieneId::new(SyntaxContext::Expansion(number))
}

/// The diagnostic of a static without a value, at this place.
fn missing_body(place: u32) -> ExpressionStoreDiagnostics {
    ExpressionStoreDiagnostics::MissingBody {
        node: node(place),
        kind: MissingBodyItemKind::Static,
    }
}

/// The id of this number.
fn id<K>(number: u32) -> Idx<K> {
    Idx::from_raw(number)
}

/// Adds the entry of this kind and this number.
pub fn add_entry(b: &mut ExpressionStoreBuilder, kind: Entry, n: u32) -> Result<(), BuildFault> {
    match kind {
        Entry::Expr => taken(b.map_expr(source(n), expr(n)), (source(n), expr(n))),
        Entry::ExprBack => taken(b.map_expr_back(id(n), source(n)), (id(n), source(n))),
        Entry::Pat => taken(b.map_pat(source(n), pat(n)), (source(n), pat(n))),
        Entry::PatBack => taken(b.map_pat_back(id(n), source(n)), (id(n), source(n))),
        Entry::Label => taken(b.map_label(source(n), id(n)), (source(n), id(n))),
        Entry::LabelBack => taken(b.map_label_back(id(n), source(n)), (id(n), source(n))),
        Entry::Type => taken(b.map_type(source(n), id(n)), (source(n), id(n))),
        Entry::TypeBack => taken(b.map_type_back(id(n), source(n)), (id(n), source(n))),
        Entry::Lifetime => taken(b.map_lifetime(source(n), id(n)), (source(n), id(n))),
        Entry::LifetimeBack => taken(b.map_lifetime_back(id(n), source(n)), (id(n), source(n))),
        Entry::FieldBack => taken(b.map_field_back(id(n), source(n)), (id(n), source(n))),
        Entry::PatFieldBack => taken(b.map_pat_field_back(id(n), source(n)), (id(n), source(n))),
        Entry::Expansion => {
            let call = MacroCallId::from_raw(n);
            taken(b.add_expansion(source(n), call), (source(n), call))
        }
        Entry::Definition => taken(b.add_definition(id(n), id(n)), (id(n), id(n))),
        Entry::Diagnostic => taken(b.push_diagnostic(missing_body(n)), missing_body(n)),
        Entry::Hygiene => {
            let hygiene = in_expansion(n);
            taken(b.set_hygiene(expr(n), hygiene), (expr(n), hygiene))
        }
        Entry::Block => {
            let block = BlockId::from_raw(n);
            taken(b.add_block_scope(block), block)
        }
        Entry::Owner => taken(b.binding_owners.insert(id(n), id(n)), (id(n), id(n))),
    }
}
