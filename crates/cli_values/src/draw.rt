//! Parses how a seed draws choices.

ghost use Rattle.std.specs.Prelude.{◌≡◌, Ok, Some, MatchResult};
ghost use Rattle.cli_values.specs.Draws.{named_in, has_points, IsDraw, IsNoDraw, MeansOrder, MeansPoints, MeansRefusals, OrderSaid};

use cli_args::{read_input, read_word};
use sched_draw::{Chance, ChangePoints, Depth, Draw, Mean, Order, Refusals, Steps};
use text_items::split_at_byte;

/// The forms of `--schedule`, for its fault.
pub const DRAWS: &str =
    "--schedule takes even, mixed, bursts:MEAN with a decimal number from 1 to 2147483648, or priorities:DEPTH with one from 1 to 1000, \
                     as bursts:100";

/// The form of `--within`, for its fault.
pub const WITHIN: &str =
    "--within takes a decimal number of steps from 1 to 4294967295, as --within 200";

/// What `--within` goes with, for its fault.
pub const NO_POINTS: &str = "--within goes with --schedule priorities:DEPTH or mixed";

/// The forms of `--refusals`, for its fault.
pub const REFUSALS: &str =
    "--refusals takes never, or one-in:N with a decimal number from 1 to 65536, as one-in:4";

/// Why a text gives no order of harts.
#[derive(Clone, Copy, Debug, PartialEq, Eq)]
pub enum OrderFault {
    /// The form is unknown.
    Unknown,
    /// The mean of bursts is 0, or more than `MOST_MEAN`.
    BadMean,
    /// The depth of priorities is 0, or more than `MOST_DEPTH`.
    BadDepth,
}

/// Why texts give no draw.
#[derive(Clone, Copy, Debug, PartialEq, Eq)]
pub enum DrawFault {
    /// The form of the refusals is unknown, or they are one in 0 or in more than `MOST_ONE_IN`.
    Refusals,
    /// The order of the harts is invalid.
    Order(OrderFault),
    /// The number of steps within which priorities change is none from 1 to 2^32 - 1.
    Within,
    /// There is such a number, and harts aren't chosen by priorities.
    NoPoints,
}

impl DrawFault {
    /// The text of the fault, for standard error.
    pub fn text(self) -> &'static str {
        match self {
            DrawFault::Refusals => REFUSALS,
            DrawFault::Order(_) => DRAWS,
            DrawFault::Within => WITHIN,
            DrawFault::NoPoints => NO_POINTS,
        }
    }
}

// The number after a word and a colon, in a text that begins with that word.
fn number_behind(text: &str, word: &str) -> Option<u32>
    ensures { result ≡ named_in word.now text.now }
{
    let (name, rest) = split_at_byte(text.as_bytes(), b':');
    if name != word.as_bytes() {
        return None;
    }
    match rest {
        [_, digits @ ..] => read_input(digits),
        [] => None,
    }
}

/// The order of a text: `even` (the default), `mixed`, or `bursts:` or `priorities:` and a decimal
/// number.
pub fn read_order(text: Option<&str>) -> Result<Order, OrderFault>
    ensures { MeansOrder text.entry result }
{
    match text {
        Some(text) => order_said(text),
        None => Ok(Order::Even),
    }
}

// The order that a text says.
fn order_said(text: &str) -> Result<Order, OrderFault>
    ensures { OrderSaid text.now result }
{
    if text.as_bytes() == "even".as_bytes() {
        return Ok(Order::Even);
    }
    if text.as_bytes() == "mixed".as_bytes() {
        return Ok(Order::Mixed);
    }
    if let Some(mean) = number_behind(text, "bursts") {
        return match Mean::new(mean) {
            Some(mean) => Ok(Order::Bursts(mean)),
            None => Err(OrderFault::BadMean),
        };
    }
    if let Some(depth) = number_behind(text, "priorities") {
        return match Depth::new(depth) {
            Some(depth) => Ok(Order::Priorities(depth)),
            None => Err(OrderFault::BadDepth),
        };
    }
    Err(OrderFault::Unknown)
}

/// The refusals of a text: one in 16 by default, `never`, or `one-in:` and a decimal number from 1
/// to `MOST_ONE_IN`. `None` exactly if it is none of these.
pub fn read_refusals(text: Option<&str>) -> Option<Refusals>
    ensures { MeansRefusals text.entry result }
{
    let Some(text) = text else {
        return Some(Refusals::usual());
    };
    if text.as_bytes() == "never".as_bytes() {
        return Some(Refusals::Never);
    }
    let choices = number_behind(text, "one-in")?;
    let chance = Chance::new(choices)?;
    Some(Refusals::OneIn(chance))
}

/// Where change points lie, by a text: at any step by default, or within the first steps, so many,
/// in decimal. `None` exactly if that is no number from 1 to 2^32 - 1.
pub fn read_points(text: Option<&str>) -> Option<ChangePoints>
    ensures { MeansPoints text.entry result }
{
    let Some(text) = text else {
        return Some(ChangePoints::Anywhere);
    };
    let count = read_word(text)?;
    let first = Steps::new(u64::from(count))?;
    Some(ChangePoints::Within(first))
}

// Whether an order has change points, or none are asked for.
fn has_points(order: Order, points: ChangePoints) -> bool
    ensures { result ≡ has_points order points }
{
    match points {
        ChangePoints::Anywhere => true,
        ChangePoints::Within(_) => order.follows(),
    }
}

/// How a seed draws, by three texts. A fault of the refusals comes first, then one of the order,
/// and one of the change points last.
pub fn read_draw(
    order: Option<&str>,
    refusals: Option<&str>,
    within: Option<&str>,
) -> Result<Draw, DrawFault>
    ensures { MatchResult result
        (λ draw. IsDraw order.entry refusals.entry within.entry draw)
        (λ fault. IsNoDraw order.entry refusals.entry within.entry fault) }
{
    let Some(refusals) = read_refusals(refusals) else {
        return Err(DrawFault::Refusals);
    };
    let order = match read_order(order) {
        Ok(order) => order,
        Err(fault) => return Err(DrawFault::Order(fault)),
    };
    let Some(points) = read_points(within) else {
        return Err(DrawFault::Within);
    };
    if !has_points(order, points) {
        return Err(DrawFault::NoPoints);
    }
    Ok(Draw {
        order,
        refusals,
        points,
    })
}
