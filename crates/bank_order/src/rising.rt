//! Whether the stamps of a log rise.
ghost use Rattle.std.specs.Prelude.{◌≡◌, ◌↔◌, None, true};
ghost use Rattle.bank_laws.specs.Order.{Rises, Earlier};
ghost use Rattle.bank_order.specs.Rising.{is_above, rises_above};

use crate::segment::LogSegment;

// Whether a stamp is above the last one, if there is one.
fn is_above(last: Option<u64>, stamp: u64) -> bool
    ensures { result ≡ is_above last stamp }
{
    match last {
        None => true,
        Some(last) => last < stamp,
    }
}

// Whether each stamp is above the one before.
fn rises(log: &[LogSegment]) -> bool
    ensures { result ≡ rises_above None log.now }
{
    let mut last = None;
    'segments: for segment in log {
        if !is_above(last, segment.stamp) {
            return false;
        }
        last = Some(segment.stamp);
    }
    true
}

/// Whether each segment of a log has a stamp above those of all segments before it.
pub fn is_rising(log: &[LogSegment]) -> bool
    ensures { (result ≡ true) ↔ Rises Earlier log.now }
{
    rises(log)
}
