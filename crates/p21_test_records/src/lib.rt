//! Records under small schemas, read, checked and written again: tables of instances with the canonical statement, the
//! refusal or the needs of each. Beside them the calls on trees, values and texts below, each by itself. It has tests
//! alone.
#![tactic(auto)]

#[cfg(test)]
mod tests;
