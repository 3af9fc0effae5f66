//! What the numbers of a call ask for.

ghost use Rattle.std.specs.Prelude.{◌≡◌};
ghost use Rattle.page.specs.Asked.{bounds_numbered, exit_numbered, expect_numbered, lines_of, refusals_numbered, report_numbered, rule_numbered, view_numbered};

use cmd_campaign::Report;
use cmd_run::FileView;
use cmd_trace::{TraceForm, TracePlan};
use explore_space::{OwnBounds, ScRefusals};
use object_library::Kind;
use outcome::{Exit, Expect};

// The rule with a number, or that there is none; `None` for a number of no rule.
fn rule_of(rule: u32) -> Option<Option<Kind>>
    ensures { result ≡ rule_numbered rule }
{
    match rule {
        0 => Some(None),
        1 => Some(Some(Kind::Swap)),
        2 => Some(Some(Kind::Add)),
        3 => Some(Some(Kind::LrSc)),
        4 => Some(Some(Kind::AdoptCommit)),
        5 => Some(Some(Kind::Rounds)),
        _ => None,
    }
}

fn exit_of(exit: u32) -> Option<Exit>
    ensures { result ≡ exit_numbered exit }
{
    match exit {
        0 => Some(Exit::May),
        1 => Some(Exit::Must),
        _ => None,
    }
}

/// What is expected of a run, by the numbers of a rule and of whether harts must exit.
pub(crate) fn expect_of(rule: u32, exit: u32) -> Option<Expect>
    ensures { result ≡ expect_numbered rule exit }
{
    let rule = rule_of(rule)?;
    let exit = exit_of(exit)?;
    Some(Expect { rule, exit })
}

/// What is shown of a file.
pub(crate) fn view_of(view: u32) -> Option<FileView>
    ensures { result ≡ view_numbered view }
{
    match view {
        0 => Some(FileView::Listing),
        1 => Some(FileView::Facts),
        _ => None,
    }
}

/// The lines of the choices from one up to, but not including, another.
pub(crate) fn plan_of(from: u64, to: u64) -> TracePlan
    ensures { result ≡ lines_of from to }
{
    TracePlan {
        form: TraceForm::Lines,
        from,
        to: Some(to),
        word: None,
    }
}

/// What is reported of a campaign.
pub(crate) fn report_of(report: u32) -> Option<Report>
    ensures { result ≡ report_numbered report }
{
    match report {
        0 => Some(Report::Lines),
        1 => Some(Report::Failures),
        2 => Some(Report::Summary),
        3 => Some(Report::Outcomes),
        4 => Some(Report::Causes),
        _ => None,
    }
}

/// Whether the bounds on harts' own steps are asked for.
pub(crate) fn bounds_of(bounds: u32) -> Option<OwnBounds>
    ensures { result ≡ bounds_numbered bounds }
{
    match bounds {
        0 => Some(OwnBounds::NotAsked),
        1 => Some(OwnBounds::Asked),
        _ => None,
    }
}

/// Whether store-conditionals are refused that could succeed.
pub(crate) fn refusals_of(refusals: u32) -> Option<ScRefusals>
    ensures { result ≡ refusals_numbered refusals }
{
    match refusals {
        0 => Some(ScRefusals::Never),
        1 => Some(ScRefusals::Also),
        _ => None,
    }
}
