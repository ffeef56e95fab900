//! A path with generic arguments, whose lists are counted before it is made.

ghost use Rattle.std.specs.Prelude.{◌≡◌, length, IfOk, IfErr};
ghost use Rattle.hir_path.specs.Paths.{path_with};
ghost use Rattle.hir_make.specs.Adding.{RefusesLists};

use hir_base::ModPath;
use hir_collections::{Boxed, Seq};
use hir_error::HirError;
use hir_node::{GenericArgs, NormalPath, Path, TypeRefId};
use std::alloc::Global;

/// Returns the path with this anchor and these lists of generic arguments, one for each segment, as
/// `[Some([u8]), None]` for `Vec::<u8>::new`: a `BarePath` where there is neither an anchor nor an argument.
///
/// An error says that there are more or fewer lists than segments, or that an allocation fails; what was
/// given is dropped.
pub fn path_with_args(
    alloc: Global,
    anchor: Option<TypeRefId>,
    mod_path: ModPath,
    lists: Seq<Option<GenericArgs>>,
) -> Result<Path, HirError>
    ensures ok { IfOk result (λ path. (length lists ≡ length mod_path.segments)
        × (path ≡ path_with anchor mod_path lists)) }
    ensures err { IfErr result (λ fault. RefusesLists mod_path.segments lists fault) }
{
    let segments = mod_path.segments().len();
    if lists.len() != segments {
        return Err(HirError::ArgumentLists {
            segments,
            lists: lists.len(),
        });
    }
    match anchor {
        None => Ok(Path::from_known_path(alloc, mod_path, lists)?),
        Some(_) => Ok(Path::Normal(Boxed::new(
            alloc,
            NormalPath {
                generic_args: lists,
                type_anchor: anchor,
                mod_path,
            },
        )?)),
    }
}
