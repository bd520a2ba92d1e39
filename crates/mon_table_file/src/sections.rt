//! The sections of a table file.

ghost use Rattle.std.specs.Prelude.{◌≡◌, IfOk};
ghost use Rattle.std.specs.Result.{IfErr};
ghost use Rattle.mon_text.specs.Faults.{OnBadFrom};
ghost use Rattle.mon_table_file.specs.Lines.{may_stand};
ghost use Rattle.mon_table_file.specs.Reading.{heading};
ghost use Rattle.mon_table_file.specs.Sections.{HeadAt, LinksAt, LinksStop, RulesAt, RulesStop, IsBrokenFrom};

use crate::judging::{has_other_tag, tags_of};
use crate::lines::{link_at, miss_at, name_at, rule_at, switch_at};
use mon_shows::Nears;
use mon_table::Table;
use mon_text::LineFault;
use mon_topo::Vids;
use std::alloc::Global;

/// The most rules of a table.
const MOST_RULES: u32 = 4096;

/// What the first four lines say: whether the file is of the second version, a switch, its tag, the tags in use and the
/// miss length.
#[derive(Drop)]
pub struct Head {
    pub second: bool,
    pub switch: u64,
    pub tag: u16,
    pub tags: Vids,
    pub miss: u16,
}

/// The first four lines, and the text behind them.
pub fn head_at(alloc: Global, text: &[u8]) -> Result<(Head, &[u8]), LineFault<'_>>
    ensures found { IfOk result (λ p. HeadAt text.now (heading p.0) p.1.now) }
    ensures breaks { IfErr result (λ fault. OnBadFrom fault (IsBrokenFrom text.now)) }
{
    let Some((second, named)) = name_at(text) else {
        return Err(LineFault::Bad(text));
    };
    let Some(((switch, tag), switched)) = switch_at(named) else {
        return Err(LineFault::Bad(named));
    };
    let Some((tags, tagged)) = tags_of(alloc, tag, switched)? else {
        return Err(LineFault::Bad(switched));
    };
    let Some((miss, rest)) = miss_at(tagged) else {
        return Err(LineFault::Bad(tagged));
    };
    let head = Head {
        second,
        switch,
        tag,
        tags,
        miss,
    };
    Ok((head, rest))
}

/// The lines of links, by rising port and each to a switch with another tag in use, and the text behind them.
pub fn links_at<'a>(
    alloc: Global,
    head: &Head,
    text: &'a [u8],
) -> Result<(Nears, &'a [u8]), LineFault<'a>>
    ensures found { IfOk result (λ p. LinksAt head.now.tag head.now.tags text.now p.0 p.1.now) }
    ensures stops { IfErr result (λ fault. OnBadFrom fault (LinksStop head.now.tag head.now.tags text.now)) }
{
    let mut links = Nears::new(alloc);
    let mut least: u32 = 0;
    let mut rest = text;
    while let Some((near, after)) = link_at(rest) {
        if u32::from(near.port) < least {
            return Err(LineFault::Bad(rest));
        }
        if !has_other_tag(head.tag, head.tags.items(), &near) {
            return Err(LineFault::Bad(rest));
        }
        least = u32::from(near.port) + 1;
        links.push(near)?;
        rest = after;
    }
    Ok((links, rest))
}

/// Whether a rule may stand in a file: one that a timeout may take stands in the second version alone.
fn may_stand(second: bool, unsure: bool) -> bool
    ensures { result ≡ may_stand second unsure }
{
    second || !unsure
}

/// The table of the lines of rules that the text is.
pub fn rules_at(alloc: Global, second: bool, text: &[u8]) -> Result<Table, LineFault<'_>>
    ensures found { IfOk result (RulesAt second text.now) }
    ensures stops { IfErr result (λ fault. OnBadFrom fault (RulesStop second text.now)) }
{
    let mut table = Table::new(alloc);
    let mut rest = text;
    while let Some((rule, after)) = rule_at(alloc, rest)? {
        if table.len() == MOST_RULES {
            return Err(LineFault::Bad(rest));
        }
        if !may_stand(second, rule.unsure) {
            return Err(LineFault::Bad(rest));
        }
        match table.put(rule)? {
            Some(_) => return Err(LineFault::Bad(rest)),
            None => rest = after,
        }
    }
    table.keeps();
    if !rest.is_empty() {
        return Err(LineFault::Bad(rest));
    }
    Ok(table)
}
