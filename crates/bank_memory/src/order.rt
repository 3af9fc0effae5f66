//! The order of a bank's accesses.
ghost use Rattle.std.specs.Prelude.{◌≡◌, true};
ghost use Rattle.bank_laws.specs.Order.{is_code_read};
ghost use Rattle.bank_memory.specs.Rising.{is_before, may_follow, rises};

use bank_laws::{LoggedAccess, LoggedKind};

// Whether an access comes before another in a bank's log: its stamp is lower, or it is the code
// read of the step whose data access the other is.
fn is_before(first: &LoggedAccess, second: &LoggedAccess) -> bool
    ensures { result ≡ is_before first.now second.now }
{
    first.stamp < second.stamp
        || (first.stamp == second.stamp
            && first.hart == second.hart
            && is_code_read(first.kind)
            && !is_code_read(second.kind))
}

fn is_code_read(kind: LoggedKind) -> bool
    ensures { result ≡ is_code_read kind }
{
    matches!(kind, LoggedKind::CodeRead)
}

/// Whether an access may come after a log that is in order. Only the log's last access decides.
pub(crate) fn may_follow(log: &[LoggedAccess], access: &LoggedAccess) -> bool
    requires { rises log.now ≡ true }
    ensures { result ≡ may_follow log.now access.now }
{
    if log.is_empty() {
        return true;
    }
    is_before(&log[log.len() - 1], access)
}
