//! The printed line of a property.
ghost use Rattle.std.specs.Prelude.{◌≡◌, ◌++◌, IfOk, Some, map, string_bytes};
ghost use Rattle.cmd_properties.specs.Lines.{comparison_name, judged_line, judged_lines, order_name, property_text};

use isa_names::Word;
use property_judge::{Comparison, Judged, Order, Property};
use std::alloc::{AllocError, Allocator};
use std::fmt;

// An order, shown as a text of `--always` has it for signed numbers.
#[derive(Clone, Copy)]
struct OrderName(Order);

impl fmt::Display for OrderName {
    ghost output = { λ o. Some (order_name o.0) };

    fn fmt<W: fmt::Write>(&self, f: &mut fmt::Formatter<W>) -> fmt::Result {
        let name = match self.0 {
            Order::Less => "<",
            Order::AtMost => "<=",
            Order::Greater => ">",
            Order::AtLeast => ">=",
        };
        f.write_str(name)
    }
}

/// A comparison, shown as a text of `--always` has it.
#[derive(Clone, Copy)]
pub(crate) struct ComparisonName(pub(crate) Comparison);

impl fmt::Display for ComparisonName {
    ghost output = { λ c. Some (comparison_name c.0) };

    fn fmt<W: fmt::Write>(&self, f: &mut fmt::Formatter<W>) -> fmt::Result {
        match self.0 {
            Comparison::Equal => f.write_str("=="),
            Comparison::Unequal => f.write_str("!="),
            Comparison::Signed(order) => {
                let name = OrderName(order);
                write!(f, "{name}")
            }
            Comparison::Unsigned(order) => {
                let name = OrderName(order);
                write!(f, "{name}u")
            }
        }
    }
}

// A property, shown with its addresses and its number as words.
#[derive(Clone, Copy)]
struct PropertyText(Property);

impl fmt::Display for PropertyText {
    ghost output = { λ p. Some (property_text p.0) };

    fn fmt<W: fmt::Write>(&self, f: &mut fmt::Formatter<W>) -> fmt::Result {
        match self.0 {
            Property::Always {
                word,
                comparison,
                number,
            } => {
                let (word, name, number) = (Word(word), ComparisonName(comparison), Word(number));
                write!(f, "always {word} {name} {number}")
            }
            Property::NeverBoth { from, to } => {
                let (from, to) = (Word(from), Word(to));
                write!(f, "never-both {from}..{to}")
            }
        }
    }
}

/// A judged property, shown as a line without LF: the property, with its addresses and its number
/// as eight hexadecimal digits; and ` kept`, or ` broken after ` and the number of choices.
#[derive(Clone, Copy)]
pub struct JudgedLine(pub Judged);

impl fmt::Display for JudgedLine {
    ghost output = { λ l. Some (judged_line l.0) };

    fn fmt<W: fmt::Write>(&self, f: &mut fmt::Formatter<W>) -> fmt::Result {
        let property = PropertyText(self.0.property);
        match self.0.broken {
            None => write!(f, "{property} kept"),
            Some(choices) => write!(f, "{property} broken after {choices}"),
        }
    }
}

/// Appends the lines of judged properties, each ended by LF.
pub(crate) fn push_lines<A: Allocator>(
    text: &mut String<A>,
    judged: &[Judged],
) -> Result<(), AllocError>
    ensures { IfOk result (λ _. string_bytes text.new
        ≡ string_bytes text.old ++ judged_lines judged.now) }
{
    'properties: for each in judged.iter() {
        let line = JudgedLine(*each);
        writeln!(text, "{line}")?;
    }
    Ok(())
}
