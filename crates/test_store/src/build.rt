//! Builders, made of steps. A tree is a list of steps, so that few functions are lent a builder: its type is
//! laid out in each anew. A call that is refused has to give back what it was given and to leave the builder
//! as it was; it is made again then.
use crate::entries::{ENTRIES, Entry, add_entry};
use crate::nodes::{self, ExprStep, PatStep, TypeStep, Written};
use hir_collections::{Arena, ArenaFault, Idx};
use hir_node::{Expr, LifetimeRef};
use hir_store::ExpressionStoreBuilder;
use std::alloc::{AllocError, AllocFailed, Global};

/// A call that a builder gets next. Nodes are named by their numbers.
#[derive(Clone, Copy)]
pub enum Step {
    /// A list of roots begins, where there is none.
    Begin,
    /// This expression is a root.
    Root(u32),
    Expr(ExprStep),
    Pat(PatStep),
    Type(TypeStep),
    /// A binding of this name.
    Binding(&'static str),
    /// A label of this name.
    Label(&'static str),
    /// The lifetime `'static`.
    Static,
    /// An arena of so many paths takes the place of the expressions.
    Replaced(u32),
    /// An arena of a path, and so many expressions each of which holds the one before, takes the place of
    /// the expressions.
    Chain(u32),
    /// The entry of this kind and this number.
    Entry(Entry, u32),
}

/// The path `a`.
pub const PATH: Step = Step::Expr(ExprStep::Path(Written::Name("a")));

/// The pattern `_`.
pub const WILD: Step = Step::Pat(PatStep::Wild);

/// The type `!`.
pub const NEVER: Step = Step::Type(TypeStep::Never);

/// Puts an entry of each kind, of this number, after the steps.
pub fn push_entries(steps: &mut Vec<Step>, number: u32) -> Result<(), AllocError> {
    for kind in &ENTRIES {
        steps.push(Step::Entry(*kind, number))?;
    }
    Ok(())
}

/// Why something isn't built.
#[derive(Debug, Drop)]
pub enum BuildFault {
    /// An allocation failed: what the call was given came back, or couldn't be made.
    Memory,
    /// An allocation failed, and something else came back, or the builder is another one.
    Changed,
}

/// Whether the item was added: `Memory` where it came back as it is.
fn added<I: Drop, T: PartialEq + Drop>(
    outcome: Result<I, (ArenaFault, T)>,
    item: T,
) -> Result<(), BuildFault> {
    match outcome {
        Ok(_) => Ok(()),
        Err((fault, value)) => {
            if fault == ArenaFault::Memory && value == item {
                Err(BuildFault::Memory)
            } else {
                Err(BuildFault::Changed)
            }
        }
    }
}

/// Whether the value was taken: `Memory` where it came back as it is.
pub fn taken<I: Drop, T: PartialEq + Drop>(
    outcome: Result<I, AllocFailed<T>>,
    value: T,
) -> Result<(), BuildFault> {
    match outcome {
        Ok(_) => Ok(()),
        Err(failed) => {
            if failed.value == value {
                Err(BuildFault::Memory)
            } else {
                Err(BuildFault::Changed)
            }
        }
    }
}

/// The expression that holds the one before this number.
fn link(number: u32) -> Expr {
    let expr = Idx::from_raw(number.saturating_sub(1));
    Expr::Become { expr }
}

/// The expression of this number of a chain, or a path.
fn chain_expr(alloc: Global, number: u32, is_chain: bool) -> Result<Expr, AllocError> {
    if is_chain && number > 0 {
        Ok(link(number))
    } else {
        nodes::expr(alloc, &ExprStep::Path(Written::Name("a")))
    }
}

/// Puts the item, if it could be made, into the arena.
fn put<K, T: Drop>(arena: &mut Arena<K, T>, item: Result<T, AllocError>) -> Result<(), BuildFault> {
    match item {
        Ok(item) => match arena.alloc(item) {
            Ok(_) => Ok(()),
            Err(_) => Err(BuildFault::Memory),
        },
        Err(_) => Err(BuildFault::Memory),
    }
}

/// Puts an arena of so many expressions in the place of the expressions: the first is a path, and the others
/// are too, or each holds the one before.
fn replace(
    b: &mut ExpressionStoreBuilder,
    alloc: Global,
    count: u32,
    is_chain: bool,
) -> Result<(), BuildFault> {
    b.exprs = Arena::new(alloc);
    for number in 0..count {
        put(&mut b.exprs, chain_expr(alloc, number, is_chain))?;
    }
    Ok(())
}

/// Tells the builder what the step says. Each node is made twice, to be compared where it comes back.
fn add(b: &mut ExpressionStoreBuilder, alloc: Global, step: &Step) -> Result<(), BuildFault> {
    match step {
        Step::Begin => {
            b.begin_roots();
            Ok(())
        }
        Step::Root(node) => taken(b.push_root(Idx::from_raw(*node)), Idx::from_raw(*node)),
        Step::Expr(step) => match nodes::zip_ok(
            nodes::expr(alloc, step),
            nodes::expr(alloc, step),
        ) {
            Ok((expr, same)) => added(b.alloc_expr(expr), same),
            Err(fault) => Err(fault),
        },
        Step::Pat(step) => match nodes::zip_ok(nodes::pat(alloc, step), nodes::pat(alloc, step)) {
            Ok((pat, same)) => added(b.alloc_pat(pat), same),
            Err(fault) => Err(fault),
        },
        Step::Type(step) => {
            match nodes::zip_ok(nodes::type_ref(alloc, step), nodes::type_ref(alloc, step)) {
                Ok((type_ref, same)) => added(b.alloc_type(type_ref), same),
                Err(fault) => Err(fault),
            }
        }
        Step::Binding(text) => {
            match nodes::zip_ok(nodes::binding(alloc, text), nodes::binding(alloc, text)) {
                Ok((binding, same)) => added(b.alloc_binding(binding), same),
                Err(fault) => Err(fault),
            }
        }
        Step::Label(text) => match nodes::zip_ok(
            nodes::label(alloc, text),
            nodes::label(alloc, text),
        ) {
            Ok((label, same)) => added(b.alloc_label(label), same),
            Err(fault) => Err(fault),
        },
        Step::Static => added(b.alloc_lifetime(LifetimeRef::Static), LifetimeRef::Static),
        Step::Replaced(count) => replace(b, alloc, *count, false),
        Step::Chain(count) => replace(b, alloc, *count, true),
        Step::Entry(kind, number) => add_entry(b, *kind, *number),
    }
}

/// The value in a box. It is said of any type, so that no large one is laid out here.
pub fn in_a_box<T: Drop>(alloc: Global, value: T) -> Result<Box<T>, BuildFault> {
    match Box::new(alloc, value) {
        Ok(value) => Ok(value),
        Err(_) => Err(BuildFault::Memory),
    }
}

/// The builder that these steps make where no allocation fails, in a box: what is dropped is then a pointer.
pub fn build_once(
    alloc: Global,
    steps: &[Step],
) -> Result<Box<ExpressionStoreBuilder>, BuildFault> {
    let mut builder = in_a_box(alloc, ExpressionStoreBuilder::new(alloc))?;
    for step in steps {
        add(&mut builder, alloc, step)?;
    }
    Ok(builder)
}

/// Fails unless the builder has what one has that is built by these steps.
pub fn is_of_steps(
    alloc: Global,
    builder: &ExpressionStoreBuilder,
    steps: &[Step],
) -> Result<(), BuildFault> {
    let wanted = build_once(alloc, steps)?;
    if *wanted == *builder {
        Ok(())
    } else {
        Err(BuildFault::Changed)
    }
}

/// The builder that these steps make. A call that is refused leaves what the steps before it make, and is
/// made again.
pub fn build_steps(
    alloc: Global,
    steps: &[Step],
) -> Result<Box<ExpressionStoreBuilder>, BuildFault> {
    let mut builder = in_a_box(alloc, ExpressionStoreBuilder::new(alloc))?;
    for place in 0..steps.len() {
        match add(&mut builder, alloc, &steps[place]) {
            Ok(()) => {}
            Err(BuildFault::Memory) => {
                is_of_steps(alloc, &builder, &steps[..place])?;
                add(&mut builder, alloc, &steps[place])?;
            }
            Err(BuildFault::Changed) => return Err(BuildFault::Changed),
        }
    }
    Ok(builder)
}
