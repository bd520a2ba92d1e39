//! Classes of headers as clauses.

ghost use Rattle.std.specs.Prelude.{◌≡◌, ◌≤◌, OnOk, IsTrue, flat_map};
ghost use Rattle.std.specs.List.{list_all};
ghost use Rattle.mon_header.specs.Places.{header_size};
ghost use Rattle.mon_literals.specs.Clauses.{appended};
ghost use Rattle.mon_literals.specs.Conditions.{is_in_header, asked, shared_of, plain_type, no_network_fields, form_of, class_clauses};

use crate::clauses::push_alone;
use crate::condition::{Condition, is, is_not};
use crate::run::push_run;
use mon_cnf::{Clause, Formula, OutOfMemory};
use mon_header::Class;
use mon_shows::View;
use std::alloc::Global;

/// What is asked of a header of any class: the port and the tag, a VLAN priority below 8, the source of one station, a
/// destination that is neither the mark of dropped packets nor one that bridges keep to themselves (IEEE 802.1Q), and
/// the two low bits of the type of service at 0.
fn shared(tag: u16, in_port: u16) -> [Condition; 7]
    ensures { result ≡ shared_of tag in_port }
{
    [
        is(0, 16, u64::from(in_port)),
        is(112, 16, u64::from(tag)),
        is(128, 5, 0),
        is(23, 1, 0),
        is_not(64, 48, 0x024d4f4e4f00),
        is_not(64, 44, 0x0180c200000),
        is(158, 2, 0),
    ]
}

/// A type of at least 0x0600, by its upper seven bits, and none of those with a further header.
fn plain_type() -> [Condition; 9]
    ensures { result ≡ plain_type }
{
    [
        is_not(136, 7, 0),
        is_not(136, 7, 1),
        is_not(136, 7, 2),
        is_not(136, 16, 0x0800),
        is_not(136, 16, 0x0806),
        is_not(136, 16, 0x8100),
        is_not(136, 16, 0x88a8),
        is_not(136, 16, 0x8808),
        is_not(136, 16, 0x8809),
    ]
}

/// Neither protocol, addresses nor ports.
fn no_network_fields() -> [Condition; 6]
    ensures { result ≡ no_network_fields }
{
    [
        is(152, 8, 0),
        is(160, 8, 0),
        is(168, 32, 0),
        is(200, 32, 0),
        is(232, 16, 0),
        is(248, 16, 0),
    ]
}

fn push_condition(alloc: Global, f: &mut Formula, condition: Condition) -> Result<(), OutOfMemory>
    requires vars { header_size ≤ f.old.vars }
    requires within { IsTrue (is_in_header condition) }
    ensures pushed { OnOk result (f.new ≡ appended f.old (asked condition)) }
    ensures vars { f.new.vars ≡ f.old.vars }
{
    let mut literals = Clause::new(alloc);
    match condition {
        Condition::Is(run) => {
            push_run(&mut literals, run, true)?;
            push_alone(alloc, f, literals.items())
        }
        Condition::IsNot(run) => {
            push_run(&mut literals, run, false)?;
            f.push(literals)
        }
    }
}

fn push_conditions(
    alloc: Global,
    f: &mut Formula,
    conditions: &[Condition],
) -> Result<(), OutOfMemory>
    requires vars { header_size ≤ f.old.vars }
    requires within { IsTrue (list_all is_in_header conditions.now) }
    ensures pushed { OnOk result (f.new ≡ appended f.old (flat_map asked conditions.now)) }
    ensures vars { f.new.vars ≡ f.old.vars }
{
    for condition in conditions {
        push_condition(alloc, f, *condition)?;
    }
    Ok(())
}

/// What the class asks.
fn push_form(alloc: Global, f: &mut Formula, class: Class) -> Result<(), OutOfMemory>
    requires { header_size ≤ f.old.vars }
    ensures pushed { OnOk result (f.new ≡ appended f.old (flat_map asked (form_of class))) }
    ensures vars { f.new.vars ≡ f.old.vars }
{
    match class {
        Class::Tcp => push_conditions(alloc, f, &[is(136, 16, 0x0800), is(160, 8, 6)]),
        Class::Udp => push_conditions(alloc, f, &[is(136, 16, 0x0800), is(160, 8, 17)]),
        Class::Icmp => push_conditions(
            alloc,
            f,
            &[
                is(136, 16, 0x0800),
                is(160, 8, 1),
                is(232, 8, 0),
                is(248, 8, 0),
            ],
        ),
        Class::OtherIpv4 => push_conditions(
            alloc,
            f,
            &[
                is(136, 16, 0x0800),
                is_not(160, 8, 1),
                is_not(160, 8, 6),
                is_not(160, 8, 17),
                is(232, 16, 0),
                is(248, 16, 0),
            ],
        ),
        Class::Plain => {
            push_conditions(alloc, f, &plain_type())?;
            push_conditions(alloc, f, &no_network_fields())
        }
        Class::Arp => push_conditions(
            alloc,
            f,
            &[
                is(136, 16, 0x0806),
                is(152, 8, 0),
                is(232, 16, 0),
                is(248, 16, 0),
            ],
        ),
    }
}

/// Appends the clauses that say that a header is in the class, came in at the port, and may be that of a probe in the
/// view (`class_clauses_are_the_class`). Want of memory leaves some of the clauses appended.
#[tactic(auto, unfolding(crate::specs::Conditions::class_clauses))]
pub fn push_class(
    alloc: Global,
    f: &mut Formula,
    view: &View,
    class: Class,
    in_port: u16,
) -> Result<(), OutOfMemory>
    requires { header_size ≤ f.old.vars }
    ensures pushed { OnOk result (f.new ≡ appended f.old (class_clauses view.now class in_port)) }
    ensures vars { f.new.vars ≡ f.old.vars }
{
    push_conditions(alloc, f, &shared(view.tag, in_port))?;
    push_form(alloc, f, class)
}
