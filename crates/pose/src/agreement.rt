// Whether a session and an exporter answer the same.
use crate::declines::Fault;
use crate::numbers::Number;
use crate::replies::Asked;
use replay::Finding;

// The same finding, or the same refusal.
pub fn agree<K: Number>(
    asked: &Result<Asked<K>, Fault>,
    exported: &Result<Finding<K>, Fault>,
) -> bool {
    match (asked, exported) {
        (Ok(asked), Ok(finding)) => asked.finding == *finding,
        (Err(Fault::Declined(one)), Err(Fault::Declined(other))) => one == other,
        _ => false,
    }
}
