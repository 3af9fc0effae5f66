//! A run as an object of JSON.
ghost use Rattle.std.specs.Prelude.{◌≡◌, ◌++◌, ◌∷◌, [], codes, decimal, map, IfOk, OnOk};
ghost use Rattle.cmd_json.specs.Harts.{harts_value};
ghost use Rattle.cmd_json.specs.Verdict.{verdict_value};
ghost use Rattle.cmd_properties.specs.Lines.{comparison_name};
ghost use Rattle.cmd_properties.specs.Objects.{judged_object, range_kind, run_object};
ghost use Rattle.hart_step.specs.Hart.{hart_of};
ghost use Rattle.trace_text.specs.Composites.{array, member, more_elements};
ghost use Rattle.trace_text.specs.Scalars.{number_or_null};
ghost use Rattle.trace_text.specs.Values.{name_value};

use crate::hangs::push_hang_member;
use crate::lines::ComparisonName;
use cmd_json::{
    push_count_member, push_harts, push_key, push_name_member, push_next_number, push_verdict,
};
use hart_step::Hart;
use object_library::Verdict;
use property_judge::{Comparison, Judged, Property};
use std::alloc::{AllocError, Allocator};

// Appends a comma, and then a comparison, as a text of `--always` has it.
fn push_comparison<A: Allocator + Copy>(
    alloc: A,
    out: &mut Vec<u8, A>,
    comparison: Comparison,
) -> Result<(), AllocError>
    ensures { OnOk result (out.new.items ≡ out.old.items
        ++ 44 ∷ member (codes "comparison") (name_value (comparison_name comparison))) }
{
    let name = ComparisonName(comparison);
    let text = format!(in alloc; "{name}")?;
    out.push(b',')?;
    push_name_member(out, "comparison", &text)
}

// Appends what a word must be after each choice.
fn push_always<A: Allocator + Copy>(
    alloc: A,
    out: &mut Vec<u8, A>,
    word: u32,
    comparison: Comparison,
    number: u32,
) -> Result<(), AllocError>
    ensures { OnOk result (out.new.items ≡ out.old.items
        ++ (member (codes "kind") (name_value (codes "always"))
        ++ 44 ∷ (member (codes "address") (decimal word)
        ++ 44 ∷ (member (codes "comparison") (name_value (comparison_name comparison))
        ++ 44 ∷ member (codes "number") (decimal number))))) }
{
    push_name_member(out, "kind", "always")?;
    push_next_number(out, "address", u64::from(word))?;
    push_comparison(alloc, out, comparison)?;
    push_next_number(out, "number", u64::from(number))
}

// The kind of a property of a range.
#[tactic(auto, unfolding(crate::specs::Objects::range_kind))]
fn range_kind() -> &'static str
    ensures { result.now ≡ range_kind }
{
    "never-both"
}

// Appends what kind a property of a range is, and between which addresses no two harts may be.
fn push_range<A: Allocator>(
    out: &mut Vec<u8, A>,
    kind: &str,
    from: u32,
    to: u32,
) -> Result<(), AllocError>
    ensures { OnOk result (out.new.items ≡ out.old.items
        ++ (member (codes "kind") (name_value kind.now)
        ++ 44 ∷ (member (codes "from") (decimal from)
        ++ 44 ∷ member (codes "to") (decimal to)))) }
{
    push_name_member(out, "kind", kind)?;
    push_next_number(out, "from", u64::from(from))?;
    push_next_number(out, "to", u64::from(to))
}

// Appends after how many choices a property was broken, and the closing brace.
fn push_broken<A: Allocator>(out: &mut Vec<u8, A>, broken: Option<usize>) -> Result<(), AllocError>
    ensures { OnOk result (out.new.items ≡ out.old.items
        ++ 44 ∷ (member (codes "broken_after") (number_or_null broken) ++ 125 ∷ [])) }
{
    out.push(b',')?;
    push_count_member(out, "broken_after", broken)?;
    out.push(b'}')?;
    Ok(())
}

// Appends a judged property.
#[tactic(auto, unfolding(crate::specs::Objects::judged_object))]
fn push_judged<A: Allocator + Copy>(
    alloc: A,
    out: &mut Vec<u8, A>,
    judged: &Judged,
) -> Result<(), AllocError>
    ensures { OnOk result (out.new.items ≡ out.old.items ++ judged_object judged.now) }
{
    match judged.property {
        Property::Always {
            word,
            comparison,
            number,
        } => {
            out.push(b'{')?;
            push_always(alloc, out, word, comparison, number)?;
            push_broken(out, judged.broken)
        }
        Property::NeverBoth { from, to } => {
            out.push(b'{')?;
            push_range(out, range_kind(), from, to)?;
            push_broken(out, judged.broken)
        }
    }
}

// Appends properties behind a first, each behind a comma, and the closing bracket.
fn push_more_judged<A: Allocator + Copy>(
    alloc: A,
    out: &mut Vec<u8, A>,
    judged: &[Judged],
) -> Result<(), AllocError>
    ensures { OnOk result (out.new.items
        ≡ out.old.items ++ more_elements (map judged_object judged.now)) }
{
    'properties: for each in judged {
        out.push(b',')?;
        push_judged(alloc, out, each)?;
    }
    out.push(b']')?;
    Ok(())
}

// Appends the array of judged properties.
fn push_array<A: Allocator + Copy>(
    alloc: A,
    out: &mut Vec<u8, A>,
    judged: &[Judged],
) -> Result<(), AllocError>
    ensures { OnOk result (out.new.items ≡ out.old.items ++ array (map judged_object judged.now)) }
{
    let [first, rest @ ..] = judged else {
        return out.extend_from_slice(b"[]");
    };
    out.push(b'[')?;
    push_judged(alloc, out, first)?;
    push_more_judged(alloc, out, rest)
}

// Appends the judged properties.
#[tactic(auto, unfolding(trace_text::specs::Composites::member))]
fn push_properties<A: Allocator + Copy>(
    alloc: A,
    out: &mut Vec<u8, A>,
    judged: &[Judged],
) -> Result<(), AllocError>
    ensures { OnOk result (out.new.items ≡ out.old.items
        ++ member (codes "properties") (array (map judged_object judged.now))) }
{
    push_key(out, "properties")?;
    push_array(alloc, out, judged)
}

// Appends the harts and the verdict, behind the opening brace.
#[tactic(auto, unfolding(trace_text::specs::Composites::member))]
fn push_ends<A: Allocator>(
    out: &mut Vec<u8, A>,
    verdict: Option<Verdict>,
    harts: &[Hart],
) -> Result<(), AllocError>
    ensures { OnOk result (out.new.items ≡ out.old.items
        ++ 123 ∷ (member (codes "harts") (harts_value (map hart_of harts.now))
        ++ 44 ∷ member (codes "verdict") (verdict_value verdict))) }
{
    out.extend_from_slice(b"{\"harts\":")?;
    push_harts(out, harts)?;
    out.extend_from_slice(b",\"verdict\":")?;
    push_verdict(out, verdict)
}

/// The object of a run, by its harts, the verdict on it, its properties and whether it hangs if that
/// is asked, and LF.
#[tactic(auto, unfolding(crate::specs::Objects::run_object))]
pub(crate) fn run_object<A: Allocator + Copy>(
    alloc: A,
    verdict: Option<Verdict>,
    harts: &[Hart],
    judged: &[Judged],
    hangs: Option<bool>,
) -> Result<Vec<u8, A>, AllocError>
    ensures { IfOk result (λ object. object.items
        ≡ run_object verdict (map hart_of harts.now) judged.now hangs) }
{
    let mut out = Vec::new(alloc);
    push_ends(&mut out, verdict, harts)?;
    out.push(b',')?;
    push_properties(alloc, &mut out, judged)?;
    push_hang_member(&mut out, hangs)?;
    out.push(b'\n')?;
    Ok(out)
}
