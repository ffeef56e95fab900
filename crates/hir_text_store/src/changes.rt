//! Lines that add to a builder of a store: nodes, roots, side tables, and where nodes come from.

use hir_base::{
    BlockId, ExprOrPatSource, ExprSource, FieldSource, HygieneId, InFile, LabelSource,
    LifetimeSource, MacroCallId, MacroCallPtr, PatFieldSource, PatSource, TypeSource,
};
use hir_node::{
    Binding, BindingId, Expr, ExprId, ExprOrPatId, Label, LabelId, LifetimeRef, LifetimeRefId, Pat,
    PatId, TypeRef, TypeRefId,
};
use hir_store::{ExpressionStoreBuilder, ExpressionStoreDiagnostics};
use hir_text_nodes::{TextError, Words, next};

/// What a line adds to a builder.
#[derive(Drop)]
pub enum Change {
    Expr(Expr),
    Pat(Pat),
    Type(TypeRef),
    Binding(Binding),
    Label(Label),
    Lifetime(LifetimeRef),
    Roots,
    Root(ExprId),
    Hygiene(ExprOrPatId, HygieneId),
    Owner(BindingId, ExprId),
    BlockScope(BlockId),
    Definition(BindingId, PatId),
    Diagnostic(ExpressionStoreDiagnostics),
    MapExpr(ExprSource, ExprOrPatId),
    MapPat(PatSource, ExprOrPatId),
    MapLabel(LabelSource, LabelId),
    MapType(TypeSource, TypeRefId),
    MapLifetime(LifetimeSource, LifetimeRefId),
    Expansion(InFile<MacroCallPtr>, MacroCallId),
    MapExprBack(ExprId, ExprOrPatSource),
    MapPatBack(PatId, ExprOrPatSource),
    MapLabelBack(LabelId, LabelSource),
    MapTypeBack(TypeRefId, TypeSource),
    MapLifetimeBack(LifetimeRefId, LifetimeSource),
    MapFieldBack(ExprId, FieldSource),
    MapPatFieldBack(PatId, PatFieldSource),
}

/// Returns whether there was memory for what was added.
pub fn done<T: Drop, E>(outcome: Result<T, E>) -> Result<(), TextError>
where
    TextError: From<E>,
{
    match outcome {
        Ok(_) => Ok(()),
        Err(refused) => Err(TextError::from(refused)),
    }
}

/// Reads where a node comes from, or what a source became.
fn read_source(word: &str, words: &mut Words<'_>) -> Result<Option<Change>, TextError> {
    Ok(Some(match word {
        "map-expr" => Change::MapExpr(next(words)?, next(words)?),
        "map-pat" => Change::MapPat(next(words)?, next(words)?),
        "map-label" => Change::MapLabel(next(words)?, next(words)?),
        "map-type" => Change::MapType(next(words)?, next(words)?),
        "map-lifetime" => Change::MapLifetime(next(words)?, next(words)?),
        "expansion" => Change::Expansion(next(words)?, next(words)?),
        "map-expr-back" => Change::MapExprBack(next(words)?, next(words)?),
        "map-pat-back" => Change::MapPatBack(next(words)?, next(words)?),
        "map-label-back" => Change::MapLabelBack(next(words)?, next(words)?),
        "map-type-back" => Change::MapTypeBack(next(words)?, next(words)?),
        "map-lifetime-back" => Change::MapLifetimeBack(next(words)?, next(words)?),
        "map-field-back" => Change::MapFieldBack(next(words)?, next(words)?),
        "map-pat-field-back" => Change::MapPatFieldBack(next(words)?, next(words)?),
        _ => return Ok(None),
    }))
}

impl Change {
    /// Reads what a line adds, after its first word; `None` where no such line begins with it.
    pub fn read(word: &str, words: &mut Words<'_>) -> Result<Option<Change>, TextError> {
        Ok(Some(match word {
            "expr" => Change::Expr(next(words)?),
            "pat" => Change::Pat(next(words)?),
            "type" => Change::Type(next(words)?),
            "bind" => Change::Binding(next(words)?),
            "label" => Change::Label(next(words)?),
            "lifetime" => Change::Lifetime(next(words)?),
            "roots" => Change::Roots,
            "root" => Change::Root(next(words)?),
            "hygiene" => Change::Hygiene(ExprOrPatId::ExprId(next(words)?), next(words)?),
            "pat-hygiene" => Change::Hygiene(ExprOrPatId::PatId(next(words)?), next(words)?),
            "owner" => Change::Owner(next(words)?, next(words)?),
            "block-scope" => Change::BlockScope(next(words)?),
            "definition" => Change::Definition(next(words)?, next(words)?),
            "diagnostic" => Change::Diagnostic(next(words)?),
            _ => return read_source(word, words),
        }))
    }

    /// Adds it to a builder.
    pub fn make(self, builder: &mut ExpressionStoreBuilder) -> Result<(), TextError> {
        match self {
            Change::Expr(expr) => done(builder.alloc_expr(expr)),
            Change::Pat(pat) => done(builder.alloc_pat(pat)),
            Change::Type(ty) => done(builder.alloc_type(ty)),
            Change::Binding(binding) => done(builder.alloc_binding(binding)),
            Change::Label(label) => done(builder.alloc_label(label)),
            Change::Lifetime(lifetime) => done(builder.alloc_lifetime(lifetime)),
            Change::Roots => {
                builder.begin_roots();
                Ok(())
            }
            Change::Root(id) => done(builder.push_root(id)),
            Change::Hygiene(id, hygiene) => done(builder.set_hygiene(id, hygiene)),
            Change::Owner(binding, owner) => done(builder.binding_owners.insert(binding, owner)),
            Change::BlockScope(block) => done(builder.add_block_scope(block)),
            Change::Definition(binding, pat) => done(builder.add_definition(binding, pat)),
            Change::Diagnostic(diagnostic) => done(builder.push_diagnostic(diagnostic)),
            Change::MapExpr(source, node) => done(builder.map_expr(source, node)),
            Change::MapPat(source, node) => done(builder.map_pat(source, node)),
            Change::MapLabel(source, id) => done(builder.map_label(source, id)),
            Change::MapType(source, id) => done(builder.map_type(source, id)),
            Change::MapLifetime(source, id) => done(builder.map_lifetime(source, id)),
            Change::Expansion(call, id) => done(builder.add_expansion(call, id)),
            Change::MapExprBack(id, source) => done(builder.map_expr_back(id, source)),
            Change::MapPatBack(id, source) => done(builder.map_pat_back(id, source)),
            Change::MapLabelBack(id, source) => done(builder.map_label_back(id, source)),
            Change::MapTypeBack(id, source) => done(builder.map_type_back(id, source)),
            Change::MapLifetimeBack(id, source) => done(builder.map_lifetime_back(id, source)),
            Change::MapFieldBack(id, source) => done(builder.map_field_back(id, source)),
            Change::MapPatFieldBack(id, source) => done(builder.map_pat_field_back(id, source)),
        }
    }
}
