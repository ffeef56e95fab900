//! Paths without generic arguments: where they begin, and their segments.
ghost use Rattle.std.specs.Prelude.{◌≡◌, ◌↔◌, ◌&&◌, [], ◌∷◌, ◌++◌, IsTrue, IsSome, IsOk, IfOk, IfErr, Some, codes, length, option_map};
ghost use Rattle.std.specs.Cmp.{and_per, and_equiv, on_per, on_equiv, partial_equiv_from_equiv};
ghost use Rattle.std.specs.Cmp.Lexicographic.{pointwise, bytes_decides, lists_per, lists_equiv, nat_list_eq_equiv};
ghost use Rattle.std.specs.Bool.{nat_eq};
ghost use Rattle.std.specs.Hash as fed;
ghost use Rattle.std.specs.Hash.{and-Alike, on_Alike, items_Alike, same_Alike};
ghost use Rattle.hir_collections.specs.Exact.{exact};

use crate::Name;
use crate::ids::CrateId;
use hir_collections::{ExactEq, Seq, TryClone};
use std::alloc::{AllocError, AllocFailed, Global};
use std::hash::{Hash, Hasher};
use std::marker::Model;
use std::slice;

/// Where a path begins.
#[derive(Clone, Copy, PartialEq, Eq, Hash)]
pub enum PathKind {
    /// At a name that is in scope.
    Plain,
    /// At this number of modules above the present one: `self` for 0, `super` for 1, `super::super` for 2.
    Super(u8),
    /// At `crate`.
    Crate,
    /// At a leading `::`.
    Abs,
    /// At `$crate`, of a macro that this crate defines.
    DollarCrate(CrateId),
}

impl PathKind {
    /// The kind of paths that begin with `self`.
    pub const SELF: PathKind = PathKind::Super(0);
}

impl ExactEq for PathKind {
    ghost eq_decides = { Prim.search exact };
}

impl TryClone for PathKind {
    ghost clone_is_same = { Prim.search exact };
}

// A path by where its parts are stored. A plain path of one name, as most are, is an identifier and takes no
// memory. All others are in an allocation of their own, so that what holds a path stays small.
#[derive(Drop)]
enum Form {
    Ident(Name),
    Apart(Box<Parts>),
}

// The parts of a path that isn't an identifier.
#[derive(Drop)]
struct Parts {
    kind: PathKind,
    names: Seq<Name>,
}

/// A path without arguments, modelled as its kind and its segments. It takes 24 bytes.
///
/// A plain path of one name takes no memory but that of the name.
#[derive(Drop)]
pub struct ModPath {
    form: Form,
}

impl Model for ModPath {
    ghost use Rattle.hir_base.specs.ModPath.{ModPath};

    ghost Value = { ModPath };

    ghost use Rattle.hir_base.specs.Form.{path_in};

    ghost view = { λ path. path_in path.form };
}

impl ModPath {
    ghost use Rattle.hir_base.specs.ModPath.{ident_of};

    /// Returns the plain path of this name. It takes no memory.
    pub fn from_name(name: Name) -> ModPath
        ensures { result ≡ record { kind = PathKind.Plain; segments = name ∷ [] } }
    {
        ModPath {
            form: Form::Ident(name),
        }
    }

    /// Returns the path with this kind and these segments. A plain path of one name takes no memory, and any
    /// other path one allocation beside the names.
    ///
    /// Returns an error if the allocation fails: the error gives the names back.
    pub fn from_segments(
        alloc: Global,
        kind: PathKind,
        names: Seq<Name>,
    ) -> Result<ModPath, AllocFailed<Seq<Name>>>
        ensures ok { IfOk result (λ path. path ≡ record { kind = kind; segments = names }) }
        ensures ident_never_refused { IsSome (ident_of record { kind = kind; segments = names })
            → IsOk result }
        ensures value_returned { IfErr result (λ failed. failed.value ≡ names) }
    {
        if kind == PathKind::Plain && names.len() == 1 {
            return Ok(ModPath::from_name(only_name(names)));
        }
        match Box::new(alloc, Parts { kind, names }) {
            Ok(parts) => Ok(ModPath {
                form: Form::Apart(parts),
            }),
            Err(failed) => Err(AllocFailed {
                value: failed.value.names,
            }),
        }
    }

    /// Returns where the path begins.
    pub fn kind(&self) -> PathKind
        ensures { result ≡ self.now.kind }
    {
        match &self.form {
            Form::Ident(_) => PathKind::Plain,
            Form::Apart(parts) => parts.kind,
        }
    }

    /// Returns the names of the path, first to last. The prefix that its kind says, as `crate`, isn't one of
    /// them.
    pub fn segments(&self) -> &[Name]
        ensures { result.now ≡ self.now.segments }
    {
        match &self.form {
            Form::Ident(name) => slice::from_ref(name),
            Form::Apart(parts) => parts.names.as_slice(),
        }
    }

    /// Returns whether the path is an identifier: one name, and nothing before it.
    pub fn is_ident(&self) -> bool
        ensures { IsTrue result ↔ IsSome (ident_of self.now) }
    {
        self.as_ident().is_some()
    }

    /// Returns the name, if the path is an identifier.
    pub fn as_ident(&self) -> Option<&Name>
        ensures { option_map (λ name. name.now) result ≡ ident_of self.now }
    {
        match self.segments() {
            [name] if self.kind() == PathKind::Plain => Some(name),
            _ => None,
        }
    }

    /// Returns whether the path is the identifier `Self`.
    #[allow(non_snake_case)]
    pub fn is_Self(&self) -> bool
        ensures { IsTrue result ↔ (ident_of self.now ≡ Some (codes "Self")) }
    {
        match self.as_ident() {
            Some(name) => name.as_str() == "Self",
            None => false,
        }
    }
}

// Returns the name of a list of one name.
fn only_name(names: Seq<Name>) -> Name
    requires { length names ≡ 1 }
    ensures { names ≡ result ∷ [] }
{
    let mut names = names.into_vec();
    match names.pop() {
        Some(name) => name,
        None => unreachable!(),
    }
}

impl PartialEq for ModPath {
    ghost use Rattle.hir_base.specs.contracts.mod_path.PathKindPartialEq.TheImpl.Laws as kind_laws;

    ghost eq = { λ x y. ⟦<PathKind as PartialEq>⟧.eq x.kind y.kind
        && pointwise (pointwise nat_eq) x.segments y.segments };

    ghost laws = { and_per (on_per (λ path. path.kind) kind_laws.lawful.laws)
        (on_per (λ path. path.segments) (lists_per (partial_equiv_from_equiv nat_list_eq_equiv))) };

    fn eq(&self, other: &ModPath) -> bool {
        self.kind() == other.kind() && self.segments() == other.segments()
    }
}

impl Eq for ModPath {
    ghost use Rattle.hir_base.specs.contracts.mod_path.PathKindEq.TheImpl.Laws as kind_laws;

    ghost laws = { and_equiv (on_equiv (λ path. path.kind) kind_laws.lawful.laws)
        (on_equiv (λ path. path.segments) (lists_equiv nat_list_eq_equiv)) };
}

impl Hash for ModPath {
    ghost use Rattle.hir_base.specs.contracts.mod_path.PathKindHash.TheImpl.Laws as kind_laws;

    ghost hash_input = { λ path. ⟦<PathKind as Hash>⟧.hash_input path.kind
        ++ fed.slice fed.str path.segments };

    ghost respects_eq = { (and-Alike (on_Alike (λ path. path.kind)
        (record { fed = kind_laws.lawful.respects_eq }))
        (on_Alike (λ path. path.segments) (items_Alike (same_Alike fed.str bytes_decides)))).fed };

    fn hash<H: Hasher>(&self, state: &mut H) {
        self.kind().hash(state);
        self.segments().hash(state);
    }
}

impl Clone for ModPath {
    ghost is_clone = { λ path copy. copy ≡ path };

    fn clone(&self) -> Result<ModPath, AllocError> {
        let form = match &self.form {
            Form::Ident(name) => Form::Ident(name.clone()?),
            Form::Apart(parts) => Form::Apart(clone_parts(parts)?),
        };
        Ok(ModPath { form })
    }
}

// Returns a copy of the parts, in an allocation of its own.
fn clone_parts(parts: &Box<Parts>) -> Result<Box<Parts>, AllocError>
    ensures { IfOk result (λ copy. (copy.value.kind ≡ parts.now.value.kind)
        × (copy.value.names ≡ parts.now.value.names)) }
{
    let names = parts.names.clone()?;
    let copy = Parts {
        kind: parts.kind,
        names,
    };
    Ok(Box::new(*Box::allocator(parts), copy)?)
}

impl ExactEq for ModPath {
    ghost eq_decides = { Prim.search exact };
}

impl TryClone for ModPath {
    ghost clone_is_same = { Prim.search exact };
}
