//! Theorems that a reader relies on and that no call's contract states.
//! Each is a function with an empty body: its contract is the theorem, proved for every value.
ghost use Rattle.std.specs.Prelude.{◌≡◌, ◌++◌};
ghost use Rattle.std.specs.List.{flat_map};
ghost use Rattle.hir_node.specs.ChildCalls.{t, opt, arg_calls, args_calls, binding_calls, bound_calls};
ghost use Rattle.hir_path.specs.declared.path.GenericArgs.{out-GenericArgs};
ghost use Rattle.hir_path.specs.declared.path.AssociatedTypeBinding.{out-AssociatedTypeBinding};

use hir_path::{AssociatedTypeBinding, GenericArgs};

/// The child calls of generic arguments are those of each argument, then those of each binding.
pub fn calls_of_generic_args(args: &GenericArgs)
    ensures { let held = out-GenericArgs args.now in
        args_calls args.now ≡ flat_map arg_calls held.args ++ flat_map binding_calls held.bindings }
{}

/// The child calls of an associated type binding are those of its own generic arguments, its type, and those
/// of its bounds.
pub fn calls_of_binding(binding: &AssociatedTypeBinding)
    ensures { let held = out-AssociatedTypeBinding binding.now in
        binding_calls binding.now
        ≡ opt args_calls held.args ++ opt t held.type_ref ++ flat_map bound_calls held.bounds }
{}
