//! The lines of a table file, each from the front of a text.

ghost use Rattle.std.specs.Prelude.{◌≡◌, codes, IfOk, option_map};
ghost use Rattle.mon_text.specs.Parts.{led, ended, bytes_in, number_within};
ghost use Rattle.mon_table_file.specs.Reading.{port_in, datapath_word, last_tag, switch_in, miss_in, tags_in, link_in, actions_from, with_actions, actions_in, name_in, end_in, with_match, front_in, with_rule, row_in, tags_line_in};

use mon_header::{Actions, Match};
use mon_list::OutOfMemory;
use mon_shows::Near;
use mon_table::Rule;
use mon_text::{behind, datapath_at, number_within, read_digits, take_run};
use of_action::{ActionFault, read_actions};
use of_match::read_match;
use std::alloc::Global;

/// A port and a space.
fn port_at(text: &[u8]) -> Option<(u16, &[u8])>
    ensures { option_map (λ p. (p.0, p.1.now)) result ≡ port_in text.now }
{
    let (port, rest) = number_within(1, 65280, text)?;
    let rest = behind(b" ", rest)?;
    Some((port, rest))
}

/// A datapath id and a space.
fn datapath_word(text: &[u8]) -> Option<(u64, &[u8])>
    ensures { option_map (λ p. (p.0, p.1.now)) result ≡ datapath_word text.now }
{
    let (datapath, rest) = datapath_at(text)?;
    let rest = behind(b" ", rest)?;
    Some((datapath, rest))
}

/// A tag and the end of the line.
fn last_tag(text: &[u8]) -> Option<(u16, &[u8])>
    ensures { option_map (λ p. (p.0, p.1.now)) result ≡ last_tag text.now }
{
    let (tag, rest) = number_within(1, 4094, text)?;
    let rest = behind(b"\n", rest)?;
    Some((tag, rest))
}

/// The first line: whether the file is of the second version.
#[tactic(auto, unfolding(crate::specs::Reading::name_in))]
pub fn name_at(text: &[u8]) -> Option<(bool, &[u8])>
    ensures { option_map (λ p. (p.0, p.1.now)) result ≡ name_in text.now }
{
    if let Some(rest) = behind(b"monocle-table 1\n", text) {
        return Some((false, rest));
    }
    let rest = behind(b"monocle-table 2\n", text)?;
    Some((true, rest))
}

/// The line of the switch: its datapath id and its tag.
#[tactic(auto, unfolding(crate::specs::Reading::switch_in))]
pub fn switch_at(text: &[u8]) -> Option<((u64, u16), &[u8])>
    ensures { option_map (λ p. (p.0, p.1.now)) result ≡ switch_in text.now }
{
    let rest = behind(b"switch ", text)?;
    let (datapath, rest) = datapath_word(rest)?;
    let (tag, rest) = last_tag(rest)?;
    Some(((datapath, tag), rest))
}

/// The line of the miss length.
#[tactic(auto, unfolding(crate::specs::Reading::miss_in))]
pub fn miss_at(text: &[u8]) -> Option<(u16, &[u8])>
    ensures { option_map (λ p. (p.0, p.1.now)) result ≡ miss_in text.now }
{
    let rest = behind(b"miss ", text)?;
    let (miss, rest) = number_within(0, 65535, rest)?;
    let rest = behind(b"\n", rest)?;
    Some((miss, rest))
}

/// A space and a tag.
fn tag_at(text: &[u8]) -> Option<(u16, &[u8])>
    ensures { option_map (λ p. (p.0, p.1.now)) result ≡ led (codes " ") (number_within 1 4094) text.now }
{
    let rest = behind(b" ", text)?;
    number_within(1, 4094, rest)
}

/// The tags of a line, at most 64, and its end.
fn tags_at(alloc: Global, text: &[u8]) -> Result<Option<(Vec<u16>, &[u8])>, OutOfMemory>
    ensures { IfOk result (λ o. option_map (λ p. (p.0.items, p.1.now)) o ≡ tags_in 65 text.now) }
{
    let mut tags = Vec::new(alloc);
    let mut rest = text;
    for _ in 0..65_u32 {
        if let Some(after) = behind(b"\n", rest) {
            return Ok(Some((tags, after)));
        }
        let Some((tag, after)) = tag_at(rest) else {
            return Ok(None);
        };
        tags.push(tag)?;
        rest = after;
    }
    Ok(None)
}

/// The line of the tags: at most 64.
#[tactic(auto, unfolding(crate::specs::Reading::tags_line_in))]
pub fn tags_line_at(alloc: Global, text: &[u8]) -> Result<Option<(Vec<u16>, &[u8])>, OutOfMemory>
    ensures { IfOk result (λ o. option_map (λ p. (p.0.items, p.1.now)) o ≡ tags_line_in text.now) }
{
    match behind(b"tags", text) {
        Some(rest) => tags_at(alloc, rest),
        None => Ok(None),
    }
}

/// The line of a link.
#[tactic(auto, unfolding(crate::specs::Reading::link_in))]
pub fn link_at(text: &[u8]) -> Option<(Near, &[u8])>
    ensures { option_map (λ p. (p.0, p.1.now)) result ≡ link_in text.now }
{
    let rest = behind(b"link ", text)?;
    let (port, rest) = port_at(rest)?;
    let (switch, rest) = datapath_word(rest)?;
    let (far_port, rest) = port_at(rest)?;
    let (tag, rest) = last_tag(rest)?;
    Some((
        Near {
            port,
            switch,
            far_port,
            tag,
        },
        rest,
    ))
}

/// A priority and a space.
fn priority_at(text: &[u8]) -> Option<(u16, &[u8])>
    ensures { option_map (λ p. (p.0, p.1.now)) result ≡ ended (codes " ") (number_within 0 65535) text.now }
{
    let (priority, rest) = number_within(0, 65535, text)?;
    let rest = behind(b" ", rest)?;
    Some((priority, rest))
}

/// The 40 bytes of a match in digits, and a space.
fn match_at(text: &[u8]) -> Option<([u8; 40], &[u8])>
    ensures { option_map (λ p. (p.0, p.1.now)) result ≡ ended (codes " ") (bytes_in 40) text.now }
{
    let mut bytes = [0; 40];
    let rest = read_digits(text, &mut bytes)?;
    let rest = behind(b" ", rest)?;
    Some((bytes, rest))
}

/// The line of a rule up to its actions: its priority and its match.
#[tactic(auto, unfolding(crate::specs::Reading::front_in))]
fn front_at(text: &[u8]) -> Option<(u16, Match, &[u8])>
    ensures { option_map (λ p. ((p.0, p.1), p.2.now)) result ≡ option_map with_match (front_in text.now) }
{
    let rest = behind(b"rule ", text)?;
    let (priority, rest) = priority_at(rest)?;
    let (matching, rest) = match_at(rest)?;
    Some((priority, read_match(&matching), rest))
}

/// The actions of these bytes, if they are whole and not too many.
fn actions_from(alloc: Global, bytes: &[u8]) -> Result<Option<Actions>, OutOfMemory>
    ensures { IfOk result (λ o. o ≡ actions_from bytes.now) }
{
    if bytes.is_empty() || bytes.len() > 512 {
        return Ok(None);
    }
    match read_actions(alloc, bytes) {
        Ok(actions) => Ok(Some(actions)),
        Err(ActionFault::ActionLength { .. }) => Ok(None),
        Err(ActionFault::OutOfMemory) => Err(OutOfMemory),
    }
}

/// A dash or the digits of actions.
#[tactic(auto, unfolding(crate::specs::Reading::actions_in))]
fn actions_at(alloc: Global, text: &[u8]) -> Result<Option<(Actions, &[u8])>, OutOfMemory>
    ensures { IfOk result (λ o. option_map (λ p. (p.0, p.1.now)) o ≡ option_map with_actions (actions_in text.now)) }
{
    if let Some(rest) = behind(b"-", text) {
        return Ok(Some((Actions::new(alloc), rest)));
    }
    let (bytes, rest) = take_run(alloc, text)?;
    match actions_from(alloc, &bytes)? {
        Some(actions) => Ok(Some((actions, rest))),
        None => Ok(None),
    }
}

/// The end of a rule's line: whether a timeout may take the rule.
#[tactic(auto, unfolding(crate::specs::Reading::end_in))]
fn end_at(text: &[u8]) -> Option<(bool, &[u8])>
    ensures { option_map (λ p. (p.0, p.1.now)) result ≡ end_in text.now }
{
    if let Some(rest) = behind(b"\n", text) {
        return Some((false, rest));
    }
    let rest = behind(b" unsure\n", text)?;
    Some((true, rest))
}

/// The line of a rule.
#[tactic(auto, unfolding(crate::specs::Reading::row_in))]
pub fn rule_at(alloc: Global, text: &[u8]) -> Result<Option<(Rule, &[u8])>, OutOfMemory>
    ensures { IfOk result (λ o. option_map (λ p. (p.0, p.1.now)) o ≡ option_map with_rule (row_in text.now)) }
{
    let Some((priority, matching, rest)) = front_at(text) else {
        return Ok(None);
    };
    let Some((actions, rest)) = actions_at(alloc, rest)? else {
        return Ok(None);
    };
    match end_at(rest) {
        Some((unsure, rest)) => Ok(Some((
            Rule {
                matching,
                priority,
                actions,
                unsure,
            },
            rest,
        ))),
        None => Ok(None),
    }
}
