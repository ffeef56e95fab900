//! Types, lifetimes, labels and bindings: each form is read by its word and its parts, and written as its
//! line has it.

use crate::args::{next_bounds, opt_binder, put_binder, put_bounds};
use crate::forms::{Read, Write, each, next, put};
use crate::sources::{opt_abi, opt_hygiene, put_abi};
use hir_base::Name;
use hir_node::{
    ArrayType, Binding, BindingAnnotation, BindingProblems, ConstRef, FnType, Label, LifetimeRef,
    Mutability, RefType, TypeRef, TypeRefId,
};
use hir_text_words::{Answer, TextError, Words};
use std::alloc::AllocError;

/// The words after `type`.
impl Read for TypeRef {
    fn read(words: &mut Words<'_>) -> Result<TypeRef, TextError> {
        match words.keyword() {
            "never" => Ok(TypeRef::Never),
            "placeholder" => Ok(TypeRef::Placeholder),
            "error" => Ok(TypeRef::Error),
            "tuple" => Ok(TypeRef::Tuple(next(words)?)),
            "path" => Ok(TypeRef::Path(next(words)?)),
            "raw" => {
                let ty = next(words)?;
                Ok(TypeRef::RawPtr(ty, Mutability::from_mutable(words.flag("mut"))))
            }
            "ref" => Ok(TypeRef::Reference(Read::read(words)?)),
            "array" => {
                let (ty, expr) = (next(words)?, next(words)?);
                let len = ConstRef { expr };
                Ok(TypeRef::Array(ArrayType { ty, len }))
            }
            "slice" => Ok(TypeRef::Slice(next(words)?)),
            "fn" => Ok(TypeRef::Fn(Read::read(words)?)),
            "impl" => Ok(TypeRef::ImplTrait(next_bounds(words)?)),
            "dyn" => Ok(TypeRef::DynTrait(next_bounds(words)?)),
            "param" => Ok(TypeRef::TypeParam(next(words)?)),
            "pattern" => Ok(TypeRef::PatternType(next(words)?, next(words)?)),
            _ => Err(TextError::Syntax),
        }
    }
}

/// The words after `ref`.
impl Read for RefType {
    fn read(words: &mut Words<'_>) -> Result<RefType, TextError> {
        Ok(RefType {
            ty: next(words)?,
            lifetime: next(words)?,
            mutability: Mutability::from_mutable(words.flag("mut")),
        })
    }
}

/// The words after `fn`.
impl Read for FnType {
    fn read(words: &mut Words<'_>) -> Result<FnType, TextError> {
        Ok(FnType {
            binder: opt_binder(words)?,
            is_unsafe: words.flag("unsafe"),
            abi: opt_abi(words)?,
            is_varargs: words.flag("varargs"),
            params: each(words)?,
        })
    }
}

/// Takes the name of a parameter and a colon, where they come next.
fn opt_param_name(words: &mut Words<'_>) -> Result<Option<Name>, TextError> {
    if !words.is_at_name() {
        return Ok(None);
    }
    let name = Read::read(words)?;
    words.expect(":")?;
    Ok(Some(name))
}

/// A parameter of a function pointer: its type, perhaps after a name.
impl Read for (Option<Name>, TypeRefId) {
    fn read(words: &mut Words<'_>) -> Result<(Option<Name>, TypeRefId), TextError> {
        Ok((opt_param_name(words)?, Read::read(words)?))
    }
}

fn put_param(answer: &mut Answer, name: Option<&Name>, ty: TypeRefId) -> Result<(), AllocError> {
    match name {
        Some(name) => {
            put(answer, name)?;
            answer.join(":")?;
            ty.write(answer)
        }
        None => put(answer, &ty),
    }
}

fn put_fn(answer: &mut Answer, function: &FnType) -> Result<(), AllocError> {
    answer.word("fn")?;
    put_binder(answer, &function.binder)?;
    answer.flag(function.is_unsafe, "unsafe")?;
    put_abi(answer, &function.abi)?;
    answer.flag(function.is_varargs, "varargs")?;
    for (name, ty) in function.params.as_slice() {
        put_param(answer, name.as_ref(), *ty)?;
    }
    Ok(())
}

fn put_ref(answer: &mut Answer, reference: &RefType) -> Result<(), AllocError> {
    put(answer, &("ref", reference.ty, reference.lifetime))?;
    answer.flag(reference.mutability.is_mut(), "mut")
}

/// The line of a type.
impl Write for TypeRef {
    fn write(&self, answer: &mut Answer) -> Result<(), AllocError> {
        answer.join("type")?;
        match self {
            TypeRef::Never => answer.word("never"),
            TypeRef::Placeholder => answer.word("placeholder"),
            TypeRef::Error => answer.word("error"),
            TypeRef::Tuple(types) => put(answer, &("tuple", types)),
            TypeRef::Path(path) => put(answer, &("path", path)),
            TypeRef::RawPtr(ty, mutability) => {
                put(answer, &("raw", ty))?;
                answer.flag(mutability.is_mut(), "mut")
            }
            TypeRef::Reference(reference) => put_ref(answer, reference.get()),
            TypeRef::Array(array) => put(answer, &("array", array.ty, array.len.expr)),
            TypeRef::Slice(ty) => put(answer, &("slice", ty)),
            TypeRef::Fn(function) => put_fn(answer, function.get()),
            TypeRef::ImplTrait(bounds) => {
                answer.word("impl")?;
                put_bounds(answer, bounds.as_slice())
            }
            TypeRef::DynTrait(bounds) => {
                answer.word("dyn")?;
                put_bounds(answer, bounds.as_slice())
            }
            TypeRef::TypeParam(id) => put(answer, &("param", id.parent(), id.local_id())),
            TypeRef::PatternType(ty, pat) => put(answer, &("pattern", ty, pat)),
        }
    }
}

/// The words after `lifetime`.
impl Read for LifetimeRef {
    fn read(words: &mut Words<'_>) -> Result<LifetimeRef, TextError> {
        match words.keyword() {
            "named" => Ok(LifetimeRef::Named(next(words)?)),
            "static" => Ok(LifetimeRef::Static),
            "placeholder" => Ok(LifetimeRef::Placeholder),
            "param" => Ok(LifetimeRef::Param(next(words)?)),
            "error" => Ok(LifetimeRef::Error),
            _ => Err(TextError::Syntax),
        }
    }
}

/// The line of a lifetime.
impl Write for LifetimeRef {
    fn write(&self, answer: &mut Answer) -> Result<(), AllocError> {
        answer.join("lifetime")?;
        match self {
            LifetimeRef::Named(name) => put(answer, &("named", name)),
            LifetimeRef::Static => answer.word("static"),
            LifetimeRef::Placeholder => answer.word("placeholder"),
            LifetimeRef::Param(id) => put(answer, &("param", id.parent, id.local_id)),
            LifetimeRef::Error => answer.word("error"),
        }
    }
}

/// The word after `label`.
impl Read for Label {
    fn read(words: &mut Words<'_>) -> Result<Label, TextError> {
        Ok(Label {
            name: Read::read(words)?,
        })
    }
}

/// The line of a label.
impl Write for Label {
    fn write(&self, answer: &mut Answer) -> Result<(), AllocError> {
        ("label", &self.name).write(answer)
    }
}

fn read_mode(words: &mut Words<'_>) -> BindingAnnotation {
    if words.flag("mut") {
        BindingAnnotation::Mutable
    } else if words.flag("ref") {
        BindingAnnotation::Ref
    } else if words.flag("refmut") {
        BindingAnnotation::RefMut
    } else {
        BindingAnnotation::Unannotated
    }
}

fn opt_problem(words: &mut Words<'_>) -> Option<BindingProblems> {
    if words.flag("BoundMoreThanOnce") {
        Some(BindingProblems::BoundMoreThanOnce)
    } else if words.flag("BoundInconsistently") {
        Some(BindingProblems::BoundInconsistently)
    } else if words.flag("NotBoundAcrossAll") {
        Some(BindingProblems::NotBoundAcrossAll)
    } else {
        None
    }
}

/// The words after `bind`.
impl Read for Binding {
    fn read(words: &mut Words<'_>) -> Result<Binding, TextError> {
        Ok(Binding {
            name: Read::read(words)?,
            mode: read_mode(words),
            hygiene: opt_hygiene(words)?,
            problems: opt_problem(words),
        })
    }
}

fn problem_text(problem: &BindingProblems) -> &'static str {
    match problem {
        BindingProblems::BoundMoreThanOnce => "BoundMoreThanOnce",
        BindingProblems::BoundInconsistently => "BoundInconsistently",
        BindingProblems::NotBoundAcrossAll => "NotBoundAcrossAll",
    }
}

/// The line of a binding.
impl Write for Binding {
    fn write(&self, answer: &mut Answer) -> Result<(), AllocError> {
        ("bind", &self.name).write(answer)?;
        match self.mode {
            BindingAnnotation::Unannotated => {}
            BindingAnnotation::Mutable => answer.word("mut")?,
            BindingAnnotation::Ref => answer.word("ref")?,
            BindingAnnotation::RefMut => answer.word("refmut")?,
        }
        if !self.hygiene.is_root() {
            put(answer, &self.hygiene)?;
        }
        match &self.problems {
            Some(problem) => answer.word(problem_text(problem)),
            None => Ok(()),
        }
    }
}
