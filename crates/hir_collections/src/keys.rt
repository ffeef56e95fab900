//! The code of an id of an arena as the key of a `Table`.
ghost use Rattle.std.specs.Prelude.{◌∷◌, []};
ghost use Rattle.hir_collections.specs.Codes.{number_tells};

use crate::Idx;
use crate::table::HasCode;

impl<K> HasCode for Idx<K> {
    ghost code = { λ id. id ∷ [] };

    ghost code_tells = { number_tells };
}
