//! Definitions, and nothing to run: what a tree is without its types, how JavaScript is laid out, and the equations by which
//! both are used.
#![tactic(auto)]

ghost use Rattle.tb_layout.specs.Laws.{CastsLeaveNothing, TypeArgumentsLeaveNothing, AnnotationsLeaveNothing, ParametersLeaveNothing};
ghost use Rattle.tb_layout.specs.Laws.{SignaturesLeaveNothing, ArrowResultsLeaveNothing};
ghost use Rattle.tb_layout.specs.Laws.{FieldTypesLeaveNothing, MethodResultsLeaveNothing, BasesLeaveNothing};

/// What types leave in JavaScript: nothing. `v as T` is written as `v` is, `f<T>(a)` as `f(a)`, and `a: T = v` as `a = v`; a parameter
/// without its `?` and its type, a function and a method without their types, a field without `readonly`, `?` and its type, and a class
/// without `implements`.
pub fn types_leave_nothing()
    ensures casts { CastsLeaveNothing }
    ensures arguments { TypeArgumentsLeaveNothing }
    ensures annotations { AnnotationsLeaveNothing }
    ensures parameters { ParametersLeaveNothing }
    ensures signatures { SignaturesLeaveNothing }
    ensures arrows { ArrowResultsLeaveNothing }
    ensures fields { FieldTypesLeaveNothing }
    ensures methods { MethodResultsLeaveNothing }
    ensures bases { BasesLeaveNothing }
{}
