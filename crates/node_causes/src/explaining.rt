//! Explains what the nodes of a domain wait for that was led by its record.
ghost use Rattle.std.specs.Prelude.{◌≡◌, IfOk, string_bytes};
ghost use Rattle.node_causes.specs.Explained.{cut_text, IsExplained, IsLedText, led_text};

use crate::paragraphs::{Chosen, explain};
use domain_core::NoMemory;
use record_following::ReplayedDomain;
use std::alloc::Global;

/// How many processes that wait at channels in a node's memory `explain_moment` lists at most.
const MOST_INSIDE: usize = 100;

// That the last line of a record is cut, if it is.
fn cut_words(is_cut: bool) -> &'static str
    ensures { result.now ≡ cut_text is_cut }
{
    if is_cut {
        "The last line is cut, and was left out.\n"
    } else {
        ""
    }
}

// Up to where a domain was led, whether the last line of its record is cut, and the causes.
fn led_words(alloc: Global, recorded: u64, is_cut: bool, causes: &str) -> Result<String, NoMemory>
    ensures { IfOk result (λ text. string_bytes text ≡ led_text recorded is_cut causes.now) }
{
    let mut text = format!(in alloc; "after {recorded} events\n")?;
    text.push_str(cut_words(is_cut))?;
    text.push_str(causes)?;
    Ok(text)
}

/// Says it of a domain that was led by its record, whose last line may be cut.
pub fn explain_replayed(
    alloc: Global,
    replayed: &ReplayedDomain,
    is_cut: bool,
) -> Result<String, NoMemory>
    ensures { IfOk result (λ told. IsLedText replayed.now is_cut (string_bytes told)) }
{
    let all = Chosen {
        node: None,
        most_inside: usize::MAX,
    };
    let causes = explain(alloc, replayed, all)?;
    led_words(alloc, replayed.recorded_events(), is_cut, causes.as_str())
}

/// Says why each node, or one of them, does no more than it does, at the moment to which a domain was led. Of the processes
/// that wait at channels in a node's memory the first hundred are listed, and the number of the others is given.
pub fn explain_moment(
    alloc: Global,
    replayed: &ReplayedDomain,
    node: Option<u8>,
) -> Result<String, NoMemory>
    ensures { IfOk result (λ told. IsExplained replayed.now node (string_bytes told)) }
{
    let chosen = Chosen {
        node,
        most_inside: MOST_INSIDE,
    };
    explain(alloc, replayed, chosen)
}
