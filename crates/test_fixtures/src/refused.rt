//! Calls that are repeated if they are refused.

/// Makes a call, and once more if it is refused, and returns its answer.
pub fn again<T: Drop, F: Fn() -> anyhow::Result<T>>(call: F) -> anyhow::Result<T>
    requires { F.IsAlwaysCallable call }
{
    match call() {
        Ok(answer) => Ok(answer),
        Err(_) => call(),
    }
}
