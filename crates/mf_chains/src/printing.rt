//! The text of a table of chains.
ghost use Rattle.std.specs.Prelude.{◌≡◌, ◌++◌, codes, string_bytes, OnOk, OnErr};
ghost use Rattle.std.specs.List.{flat_map};
ghost use Rattle.std.specs.Fmt.{decimal};
ghost use Rattle.mf_text.specs.Appending.{Extends};
ghost use Rattle.mf_errno.specs.Names.{policy_text};
ghost use Rattle.mf_labeltext.specs.Canonical.{elem_text};
ghost use Rattle.mf_chains.specs.ChainsText as spec;

use crate::chain::{Chain, ChainRow, ChainTable, Step};
use itoa::Buffer;
use mf_labeltext::{policy_name, print_elem};
use mf_objects::Id;
use std::alloc::AllocError;

/// Appends a line for each row. If memory runs out, the text is unchanged.
pub fn print_chains(table: &ChainTable, text: &mut String) -> Result<(), AllocError>
    ensures ok { OnOk result (string_bytes text.new ≡ string_bytes text.old
        ++ spec.chain_rows_text table.now) }
    ensures err { OnErr result (string_bytes text.new ≡ string_bytes text.old) }
{
    let length = text.len();
    let appended = push_rows(table.as_slice(), text);
    if appended.is_err() {
        text.truncate(length);
    }
    appended
}

fn push_rows(rows: &[ChainRow], text: &mut String) -> Result<(), AllocError>
    ensures ok { OnOk result (string_bytes text.new ≡ string_bytes text.old
        ++ spec.chain_rows_text rows.now) }
    ensures err { OnErr result (Extends (string_bytes text.old) (string_bytes text.new)) }
{
    for row in rows {
        push_row(row, text)?;
    }
    Ok(())
}

fn push_row(row: &ChainRow, text: &mut String) -> Result<(), AllocError>
    ensures ok { OnOk result (string_bytes text.new ≡ string_bytes text.old
        ++ spec.chain_row_text row.now) }
    ensures err { OnErr result (Extends (string_bytes text.old) (string_bytes text.new)) }
{
    push_head(row, text)?;
    push_chain(&row.chain, text)?;
    text.push('\n')
}

/// What stands in front of the chain.
fn push_head(row: &ChainRow, text: &mut String) -> Result<(), AllocError>
    ensures ok { OnOk result (string_bytes text.new ≡ string_bytes text.old
        ++ (codes "chain " ++ policy_text row.now.module ++ codes " " ++ row.now.title
        ++ codes " " ++ elem_text row.now.elem ++ codes " ")) }
    ensures err { OnErr result (Extends (string_bytes text.old) (string_bytes text.new)) }
{
    text.push_str("chain ")?;
    text.push_str(policy_name(row.module))?;
    text.push_str(" ")?;
    text.push_str(row.title.as_str())?;
    text.push_str(" ")?;
    print_elem(&row.elem, text)?;
    text.push_str(" ")
}

fn push_chain(chain: &Chain, text: &mut String) -> Result<(), AllocError>
    ensures ok { OnOk result (string_bytes text.new ≡ string_bytes text.old
        ++ (spec.moment_text chain.now.origin chain.now.event
        ++ flat_map spec.step_text chain.now.steps)) }
    ensures err { OnErr result (Extends (string_bytes text.old) (string_bytes text.new)) }
{
    push_moment(chain.origin, chain.event, text)?;
    push_steps(chain.steps.as_slice(), text)
}

fn push_steps(steps: &[Step], text: &mut String) -> Result<(), AllocError>
    ensures ok { OnOk result (string_bytes text.new ≡ string_bytes text.old
        ++ flat_map spec.step_text steps.now) }
    ensures err { OnErr result (Extends (string_bytes text.old) (string_bytes text.new)) }
{
    for step in steps {
        push_step(step, text)?;
    }
    Ok(())
}

fn push_step(step: &Step, text: &mut String) -> Result<(), AllocError>
    ensures ok { OnOk result (string_bytes text.new ≡ string_bytes text.old
        ++ spec.step_text step.now) }
    ensures err { OnErr result (Extends (string_bytes text.old) (string_bytes text.new)) }
{
    text.push_str(" ")?;
    push_moment(step.party, step.event, text)?;
    text.push_str(".")?;
    text.push_str(Buffer::new().format(step.item))
}

/// A party and an event.
fn push_moment(id: Id, event: u32, text: &mut String) -> Result<(), AllocError>
    ensures ok { OnOk result (string_bytes text.new ≡ string_bytes text.old
        ++ spec.moment_text id event) }
    ensures err { OnErr result (Extends (string_bytes text.old) (string_bytes text.new)) }
{
    text.push_str(Buffer::new().format(id.number()))?;
    text.push_str("@")?;
    text.push_str(Buffer::new().format(event))
}
