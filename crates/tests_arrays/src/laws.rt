//! Calls of laws, functions that do nothing, of the crates of functions of arrays. And the axis that a value between brackets has.
use crate::notation::array_of;
use apl_reduce::{partial_results_decide, reduced_answers_are_within_limits};
use apl_scalar::{
    OpFault, answer_is_each_outcome, answers_are_in_range, answers_are_within_limits,
};
use apl_search::{one_grade, search_answers_are_within_limits};
use apl_struct::{axis_number, structural_answers_are_within_limits};
use std::test::Fail;

#[test]
fn laws_of_functions() {
    answer_is_each_outcome();
    answers_are_in_range();
    answers_are_within_limits();
    one_grade();
    search_answers_are_within_limits();
    structural_answers_are_within_limits();
    partial_results_decide();
    reduced_answers_are_within_limits();
}

#[test]
fn axis_arguments(rt: HostRuntime) -> Result<(), Fail> {
    let alloc = rt.alloc();
    for (axis, wanted) in [
        (": ¯9223372036854775808", Ok(i64::MIN)),
        ("1: 3", Ok(3)),
        ("1 1: 1", Err(OpFault::Rank)),
        ("1 1: 'A'", Err(OpFault::Rank)),
        ("2: 1", Err(OpFault::Length)),
        ("0: ''", Err(OpFault::Length)),
        (": 'A'", Err(OpFault::Domain)),
    ] {
        let Some(argument) = array_of(alloc, axis) else {
            return Err(Fail::new(format_args!("not an array: {axis}")));
        };
        assert!(rt; axis_number(&argument) == wanted, "{axis}");
    }
    Ok(())
}
