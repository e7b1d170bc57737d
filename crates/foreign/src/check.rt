use std::fmt::Debug;
use std::test::*;

// What was found is what is wanted. The library's `assert_eq!` would end the process in the middle of a helper; this hands the failure up.
pub(crate) fn check_eq<T: PartialEq + Debug + Drop>(found: T, wanted: T) -> Result<(), Fail> {
    if found == wanted {
        Ok(())
    } else {
        Err(Fail::new(format_args!("found {found:?}, wanted {wanted:?}")))
    }
}
