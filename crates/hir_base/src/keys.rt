//! Which ids and pointers may be keys of a `Table`, and the codes that tell them apart.
ghost use Rattle.std.specs.Prelude.{◌∷◌, []};
ghost use Rattle.std.specs.Cmp.{unsigned_Decides};
ghost use Rattle.hir_collections.specs.Exact.{exact};
ghost use Rattle.hir_collections.specs.Codes.{number_tells, cons_tells};
ghost use Rattle.hir_base.specs.Keys.{node_code, node_tells, body_code, body_tells, fields_code, fields_tells, named_code, named_tells};

use crate::defs::{DefWithBodyId, NamedDef, VariantId};
use crate::ids::Id;
use crate::ptr::{AstPtr, InFile};
use hir_collections::HasCode;

impl<K> HasCode for Id<K> {
    ghost code = { λ id. id ∷ [] };

    ghost code_tells = { number_tells };
}

impl<K> HasCode for AstPtr<K> {
    ghost code = { node_code };

    ghost code_tells = { λ x y. node_tells _ x y (Prim.search exact) };
}

impl<T: HasCode> HasCode for InFile<T> {
    ghost code = { λ source. source.file_id ∷ T.code source.value };

    ghost code_tells = { λ x y.
        cons_tells _ _ _ _ _ _ (unsigned_Decides x.file_id y.file_id) (T.code_tells x.value y.value) };
}

impl HasCode for DefWithBodyId {
    ghost code = { body_code };

    ghost code_tells = { λ x y. body_tells _ x y (Prim.search exact) };
}

impl HasCode for VariantId {
    ghost code = { fields_code };

    ghost code_tells = { λ x y. fields_tells _ x y (Prim.search exact) };
}

impl HasCode for NamedDef {
    ghost code = { named_code };

    ghost code_tells = { λ x y. named_tells _ x y (Prim.search exact) };
}
