//! Both ends of a page.
ghost use Rattle.std.specs.Prelude.{◌≡◌, ◌++◌, OnOk, option_map};
ghost use Rattle.bshow.specs.Rows.{table_code};
ghost use Rattle.bshow.specs.Shows.{again_fact, finding_fact, head, last_facts, tail};

use crate::escapes::push_escaped;
use crate::page::{HEAD, TAIL};
use bendless::Repeat;
use btools::{Tables, Text};
use std::alloc::AllocError;

/// Begins a page.
pub fn push_head(page: &mut Text) -> Result<(), AllocError>
    ensures { OnOk result (page.new ≡ page.old ++ head) }
{
    page.push(HEAD)
}

/// Ends a page.
pub fn push_tail(page: &mut Text) -> Result<(), AllocError>
    ensures { OnOk result (page.new ≡ page.old ++ tail) }
{
    page.push(TAIL)
}

/// Ends the facts of a run, with its finding and a state that comes again, and the page.
pub fn push_end(
    page: &mut Text,
    tables: &Tables<'_>,
    finding: Option<&[u8]>,
    again: Option<Repeat>,
) -> Result<(), AllocError>
    ensures { OnOk result (page.new ≡ page.old
        ++ last_facts (table_code tables.now) (option_map (λ t. t.now) finding.entry) again ++ tail) }
{
    push_finding(page, finding)?;
    push_again(page, tables, again)?;
    push_tail(page)
}

fn push_finding(page: &mut Text, finding: Option<&[u8]>) -> Result<(), AllocError>
    ensures { OnOk result (page.new ≡ page.old ++ finding_fact (option_map (λ t. t.now) finding.entry)) }
{
    let Some(text) = finding else {
        return Ok(());
    };
    page.push(b",\"finding\":\"")?;
    push_escaped(page, text)?;
    page.push(b"\"")
}

fn push_again(page: &mut Text, tables: &Tables<'_>, again: Option<Repeat>) -> Result<(), AllocError>
    ensures { OnOk result (page.new ≡ page.old ++ again_fact (table_code tables.now) again) }
{
    let Some(repeat) = again else {
        return page.push(b"}");
    };
    let call = repeat.call;
    page.push(b",\"again\":[")?;
    page.push_number(repeat.first)?;
    page.push(b",")?;
    page.push_number(repeat.again)?;
    page.push(b",")?;
    page.push_number(u64::from(call.strings))?;
    page.push(b",")?;
    page.push_number(tables.line(tables.entry(call.strings), call.place))?;
    page.push(b"]}")
}
