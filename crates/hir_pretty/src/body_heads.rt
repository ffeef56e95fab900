//! What bodies and variants begin with: a keyword and names of the tables.
#![tactic(auto, using(hir_pretty_docs::proofs::AddLemmas::adding))]

ghost use Rattle.std.specs.Prelude.{◌++◌, codes};
ghost use Rattle.hir_pretty_nodes.specs.Prelude.{text, found_name, Adds};
ghost use Rattle.hir_pretty.specs.Bodies.{variant_name, body_head};
ghost use Rattle.hir_pretty.specs.Variants.{variant_head};
ghost use Rattle.hir_pretty.specs.FoundParts.{parents};

use hir_base::{DefWithBodyId, EnumVariantId, NamedDef, VariantId};
use hir_defs::Tables;
use hir_pretty_nodes::{Lookup, Token, Tokens};

/// Adds the names of the variant's enum and of the variant. The enum is looked up first.
fn add_variant_name(tokens: &mut Tokens<'_>, tables: &Tables, id: EnumVariantId)
    ensures { Adds tokens.old.stack
        (λ s. variant_name s (parents tables.now) id) tokens.new.stack }
{
    match tables.variant_parent(id) {
        Ok(parent) => {
            add_keyword(tokens, "enum ", NamedDef::EnumId(parent));
            tokens.add(&[Token::Text("::")]);
            tokens.add_named(NamedDef::EnumVariantId(id))
        }
        Err(missing) => tokens.add(&[Token::Missing(missing)]),
    }
}

/// Adds a keyword and the name of a definition.
fn add_keyword(tokens: &mut Tokens<'_>, keyword: &'static str, def: NamedDef)
    ensures { Adds tokens.old.stack
        (λ s. text keyword.now ++ found_name (codes "<missing>") (s.tables.name def)) tokens.new.stack }
{
    tokens.add(&[Token::Text(keyword)]);
    tokens.add_named(def)
}

/// Adds what a body begins with. A constant without a name is `_`.
pub(crate) fn add_body_head(tokens: &mut Tokens<'_>, tables: &Tables, owner: &DefWithBodyId)
    ensures { Adds tokens.old.stack
        (λ s. body_head s (parents tables.now) owner.now) tokens.new.stack }
{
    match owner {
        DefWithBodyId::FunctionId(id) => add_keyword(tokens, "fn ", NamedDef::FunctionId(*id)),
        DefWithBodyId::StaticId(id) => {
            add_keyword(tokens, "static ", NamedDef::StaticId(*id));
            tokens.add(&[Token::Text(" = ")])
        }
        DefWithBodyId::ConstId(id) => {
            tokens.add(&[
                Token::Text("const "),
                Token::LookUp(Lookup::Const(*id)),
                Token::Text(" = "),
            ])
        }
        DefWithBodyId::VariantId(id) => add_variant_name(tokens, tables, *id),
    }
}

/// Adds what a struct, a union or a variant begins with.
pub(crate) fn add_variant_head(tokens: &mut Tokens<'_>, tables: &Tables, owner: &VariantId)
    ensures { Adds tokens.old.stack (λ s. variant_head s (parents tables.now) owner.now)
        tokens.new.stack }
{
    match owner {
        VariantId::EnumVariantId(id) => add_variant_name(tokens, tables, *id),
        VariantId::StructId(id) => add_keyword(tokens, "struct ", NamedDef::StructId(*id)),
        VariantId::UnionId(id) => add_keyword(tokens, "union ", NamedDef::UnionId(*id)),
    }
}
