//! Bodies and signatures that are made by the helpers, printed; and what errors say of what is refused.

use crate::tour::text;
use hir::{
    BinaryOp, BindingAnnotation, Body, BuiltinInt, BuiltinUint, CmpOp, Edition, Expr, ExprId,
    ExpressionStore, ExpressionStoreBuilder, FieldsShape, FunctionId, GenericArg, GenericArgs,
    GenericArgsParentheses, GenericDefId, HirError, ModPath, Mutability, Name, NamedDef, Path,
    PathKind, Seq, StructId, Tables, Text, TypeRefId, UnaryOp, VariantId, arm, arm_if, array,
    binary, bind, bind_as, block, block_without_tail, body, bool_, break_, call, char_, continue_,
    float, fn_, index, int, label, let_, let_expr, let_typed, lit_field, lit_pat, local, loop_,
    match_, or_pat, pat_field, path_pat, path_type, path_with_args, print_signature, print_struct,
    print_variant_body_hir, pub_field, record_lit, record_pat, ref_type, return_, statement,
    string, struct_, tuple_struct, typed_int, typed_uint, unary, variant_fields, while_, wild,
};
use std::alloc::Global;

/// The body of `fn loops(v)`: it declares `mut i`, goes on while `v[i] != 7i32`, and gives `i` by a `break`
/// out of a loop with a label.
fn loops(alloc: Global) -> Result<Body, HirError> {
    let mut builder = ExpressionStoreBuilder::new(alloc);
    let v = bind(alloc, &mut builder, "v")?;
    let i = bind_as(alloc, &mut builder, "i", BindingAnnotation::Mutable)?;
    let usize_type = path_type(alloc, &mut builder, "usize")?;
    let zero = typed_uint(&mut builder, 0, BuiltinUint::Usize)?;
    let read_v = local(alloc, &mut builder, "v")?;
    let read_i = local(alloc, &mut builder, "i")?;
    let item = index(&mut builder, read_v, read_i)?;
    let seven = typed_int(&mut builder, 7, BuiltinInt::I32)?;
    let not_equal = BinaryOp::CmpOp(CmpOp::Eq { negated: true });
    let differs = binary(&mut builder, item, not_equal, seven)?;
    let again = continue_(&mut builder, None)?;
    let inside = block_without_tail(&mut builder, vec![in alloc; statement(again)]?)?;
    let search = while_(&mut builder, None, differs, inside)?;
    let outer = label(alloc, &mut builder, "'o")?;
    let found = local(alloc, &mut builder, "i")?;
    let stop = break_(&mut builder, Some(outer), Some(found))?;
    let stopping = block(&mut builder, Vec::new(alloc), stop)?;
    let last = loop_(&mut builder, Some(outer), stopping)?;
    let statements = vec![in alloc; let_typed(i, usize_type, zero), statement(search)]?;
    let value = block(&mut builder, statements, last)?;
    body(alloc, builder, &[v], value)
}

/// The body of `fn matches(p)`: a record literal, and a `match` with three arms, of two alternatives with a
/// guard, of a record pattern, and of anything else.
fn matches(alloc: Global) -> Result<Body, HirError> {
    let mut builder = ExpressionStoreBuilder::new(alloc);
    let p = bind(alloc, &mut builder, "p")?;
    let q = bind(alloc, &mut builder, "q")?;
    let number = float(alloc, &mut builder, "1.5")?;
    let numbers = array(alloc, &mut builder, &[number])?;
    let letter = char_(&mut builder, 'a')?;
    let negated = unary(&mut builder, UnaryOp::Neg, letter)?;
    let fields = vec![in alloc;
        lit_field(alloc, "x", numbers)?,
        lit_field(alloc, "y", negated)?,
    ]?;
    let literal = record_lit(alloc, &mut builder, "P", fields)?;
    let matched = local(alloc, &mut builder, "p")?;
    let one = int(&mut builder, 1)?;
    let one = lit_pat(&mut builder, one)?;
    let none = path_pat(alloc, &mut builder, "None")?;
    let either = or_pat(alloc, &mut builder, &[one, none])?;
    let guard = bool_(&mut builder, true)?;
    let leave = return_(&mut builder, None)?;
    let any = wild(&mut builder)?;
    let record = record_pat(
        alloc,
        &mut builder,
        "P",
        vec![in alloc; pat_field(alloc, "x", any)?]?,
    )?;
    let words = string(alloc, &mut builder, "a record")?;
    let any = wild(&mut builder)?;
    let inner = wild(&mut builder)?;
    let some = tuple_struct(alloc, &mut builder, "Some", &[inner])?;
    let read_q = local(alloc, &mut builder, "q")?;
    let is_some = let_expr(&mut builder, some, read_q)?;
    let arms = vec![in alloc;
        arm_if(either, guard, leave),
        arm(record, words),
        arm(any, is_some),
    ]?;
    let chosen = match_(&mut builder, matched, arms)?;
    let value = block(&mut builder, vec![in alloc; let_(q, literal)]?, chosen)?;
    body(alloc, builder, &[p], value)
}

/// The path `Vec::new` with these lists of arguments.
fn vec_new(alloc: Global, lists: Seq<Option<GenericArgs>>) -> Result<Path, HirError> {
    let mut names = Seq::with_capacity(alloc, 2)?;
    names.push(Name::new(alloc, "Vec")?)?;
    names.push(Name::new(alloc, "new")?)?;
    let mod_path = ModPath::from_segments(alloc, PathKind::Plain, names)?;
    path_with_args(alloc, None, mod_path, lists)
}

/// The list of one argument, this type.
fn one_type(alloc: Global, type_ref: TypeRefId) -> Result<GenericArgs, HirError> {
    let mut args = Seq::with_capacity(alloc, 1)?;
    args.push(GenericArg::Ty(type_ref))?;
    Ok(GenericArgs {
        args,
        has_self_type: false,
        bindings: Seq::new(alloc),
        parenthesized: GenericArgsParentheses::No,
    })
}

/// The body of `fn generic_call()`, which is `Vec::<u8>::new()`.
fn generic_call(alloc: Global) -> Result<Body, HirError> {
    let mut builder = ExpressionStoreBuilder::new(alloc);
    let u8_type = path_type(alloc, &mut builder, "u8")?;
    let mut lists = Seq::with_capacity(alloc, 2)?;
    lists.push(Some(one_type(alloc, u8_type)?))?;
    lists.push(None)?;
    let path = vec_new(alloc, lists)?;
    let callee = builder.alloc_expr(Expr::Path(path))?;
    let value = call(alloc, &mut builder, callee, &[])?;
    body(alloc, builder, &[], value)
}

/// The text of `fn first(&T) -> T`, a signature that tables have.
fn function(alloc: Global) -> Result<String, HirError> {
    let mut builder = ExpressionStoreBuilder::new(alloc);
    let item = path_type(alloc, &mut builder, "T")?;
    let borrowed = ref_type(alloc, &mut builder, item, Mutability::Shared)?;
    let returned = path_type(alloc, &mut builder, "T")?;
    let (signature, sources) = fn_(alloc, builder, "first", &[borrowed], Some(returned))?;
    let id = FunctionId::from_raw(0);
    let mut tables = Tables::new(alloc);
    tables.add_function(id, signature, sources)?;
    let owner = GenericDefId::FunctionId(id);
    Ok(print_signature(alloc, &tables, owner, Edition::Edition2021)?)
}

/// The text of `struct P { .. }`.
fn structure(alloc: Global) -> Result<String, HirError> {
    let builder = ExpressionStoreBuilder::new(alloc);
    let (signature, _sources) = struct_(alloc, builder, "P", FieldsShape::Record)?;
    let id = StructId::from_raw(0);
    Ok(print_struct(
        alloc,
        &Tables::new(alloc),
        id,
        &signature,
        Edition::Edition2021,
    )?)
}

/// The tables in which struct 0 has the field `pub x: u8`, and no name.
fn with_fields(alloc: Global) -> Result<Tables, HirError> {
    let mut builder = ExpressionStoreBuilder::new(alloc);
    let u8_type = path_type(alloc, &mut builder, "u8")?;
    let fields = vec![in alloc; pub_field(alloc, "x", u8_type)?]?;
    let (fields, sources) = variant_fields(builder, FieldsShape::Record, fields)?;
    let mut tables = Tables::new(alloc);
    tables.add_fields(VariantId::StructId(StructId::from_raw(0)), fields, sources)?;
    Ok(tables)
}

/// The text of the fields of struct 0.
fn fields(alloc: Global, tables: &Tables) -> Result<String, HirError> {
    let id = VariantId::StructId(StructId::from_raw(0));
    Ok(print_variant_body_hir(alloc, tables, id, Edition::Edition2021)?)
}

/// The text of the fields of struct 0, whose name is `P`.
fn named_fields(alloc: Global) -> Result<String, HirError> {
    let mut tables = with_fields(alloc)?;
    let name = Text::from_str(alloc, "P")?;
    tables.add_name(NamedDef::StructId(StructId::from_raw(0)), Some(name))?;
    fields(alloc, &tables)
}

/// Refuses a path with one list of arguments for two segments.
fn too_few_lists(alloc: Global) -> Result<Path, HirError> {
    let mut lists = Seq::with_capacity(alloc, 1)?;
    lists.push(None)?;
    vec_new(alloc, lists)
}

/// Refuses a call of an expression that doesn't exist.
fn no_callee(alloc: Global) -> Result<ExpressionStore, HirError> {
    let mut builder = ExpressionStoreBuilder::new(alloc);
    let value = call(alloc, &mut builder, ExprId::from_raw(9), &[])?;
    builder.push_root(value)?;
    let (store, _sources) = builder.finish()?;
    Ok(store)
}

/// Prints what an error says.
fn print_error<T: Drop>(rt: &impl Print, outcome: Result<T, HirError>) -> anyhow::Result<()> {
    match outcome {
        Ok(made) => drop(made),
        Err(error) => println!(rt; "{error}")?,
    }
    Ok(())
}

/// Prints what is made, and what is refused.
pub fn print(rt: &impl Print, alloc: Global) -> anyhow::Result<()> {
    println!(rt; "{}", text(alloc, "loops", &loops(alloc)?)?)?;
    println!(rt; "{}", text(alloc, "matches", &matches(alloc)?)?)?;
    println!(rt; "{}", text(alloc, "generic_call", &generic_call(alloc)?)?)?;
    println!(rt; "{}", function(alloc)?)?;
    println!(rt; "{}", structure(alloc)?)?;
    println!(rt; "{}", named_fields(alloc)?)?;
    print_error(rt, fields(alloc, &with_fields(alloc)?))?;
    print_error(rt, too_few_lists(alloc))?;
    print_error(rt, no_callee(alloc))
}
