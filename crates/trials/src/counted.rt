// How often each kind of answer came.
use std::process::Abort;

// Each of these kinds came more often than so.
pub fn assert_came<T: PartialEq>(rt: &impl Abort, told: &[T], least: &[(T, usize)]) {
    for (kind, often) in least {
        let came = told.iter().filter(|one| *one == kind).count();
        assert!(rt; came > *often, "{came} and not {often}");
    }
}
