/// For tests: what a call returns if there is enough memory.
///
/// `each-growth` makes one allocation of a test fail, and the call that meets it must return "out
/// of memory" and change nothing: so it is made again here, and its second result is compared like
/// any other.
#[macro_export]
macro_rules! ample {
    ($call:expr, $refused:pat) => {
        match $call {
            Err($refused) => $call,
            answer => answer,
        }
    };
}
