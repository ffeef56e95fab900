//! Lookups of the body of a definition.
ghost use Rattle.std.specs.Prelude.{◌≡◌, Option, None, Some, IfOk, IfErr};
ghost use Rattle.std.specs.Option.{option_map};
ghost use Rattle.hir_base.specs.declared.defs.DefWithBodyId.{DefWithBodyId};
ghost use Rattle.hir_store_core.specs.declared.missing.Missing.TheVariants as missing;
ghost use Rattle.hir_body.specs.Lookups.{BodyAndSources};

use crate::body::Body;
use crate::body_source_map::BodySourceMap;
use hir_base::DefWithBodyId;
use hir_store_core::Missing;

/// The body of a definition, and where it comes from.
pub type BodyEntry<'a> = (&'a Body, &'a BodySourceMap);

/// A holder of bodies of definitions.
pub trait Bodies {
    // what is held for a definition
    ghost body_entry: { Self → DefWithBodyId → Option BodyAndSources };

    /// Returns the body of the definition, and where it comes from.
    ///
    /// Returns `Missing::Body` of the definition where it has no body.
    fn body_of(&self, def: DefWithBodyId) -> Result<BodyEntry<'_>, Missing>
        ensures found { IfOk result (λ found. body_entry self.now def ≡ Some (found.0.now, found.1.now)) }
        ensures absent { IfErr result (λ absent.
            (absent ≡ missing.Body def) × (body_entry self.now def ≡ None)) };
}

/// Lookups of the body of a definition.
impl Body {
    /// Returns the body of the definition.
    ///
    /// Returns `Missing::Body` of the definition where it has no body.
    pub fn of<T: Bodies>(tables: &T, def: DefWithBodyId) -> Result<&Body, Missing>
        ensures found { IfOk result (λ found.
            option_map (λ entry. entry.0) (T.body_entry tables.now def) ≡ Some found.now) }
        ensures absent { IfErr result (λ absent.
            (absent ≡ missing.Body def) × (T.body_entry tables.now def ≡ None)) }
    {
        let (body, _) = tables.body_of(def)?;
        Ok(body)
    }

    /// Returns the body of the definition, and where it comes from.
    ///
    /// Returns `Missing::Body` of the definition where it has no body.
    pub fn with_source_map<T: Bodies>(
        tables: &T,
        def: DefWithBodyId,
    ) -> Result<BodyEntry<'_>, Missing>
        ensures found { IfOk result (λ found. T.body_entry tables.now def ≡ Some (found.0.now, found.1.now)) }
        ensures absent { IfErr result (λ absent.
            (absent ≡ missing.Body def) × (T.body_entry tables.now def ≡ None)) }
    {
        tables.body_of(def)
    }
}
