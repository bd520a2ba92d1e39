//! Small jobs, their cases and clauses.

ghost use Rattle.mon_job.specs.Jobs.{IsJob};
ghost use Rattle.mon_encode.specs.Cases.{IsCaseOf};

use crate::{IPV4, sending, two_neighbours};
use mon_cnf::holds;
use mon_encode::{Case, cases, decode_model, encode, encode_header};
use mon_header::{CLASSES, Header, Match, OutOfMemory, same_header};
use mon_job::Job;
use mon_literals::borne;
use mon_outcome::Emission;
use mon_plain::{Outcome, solve_plain};
use mon_shows::{Target, separates};
use mon_table::{Rule, Table};
use std::alloc::Global;
use std::test::Fail;

/// The fields of a match on IPv4 packets to 10.0.0.5.
const TO_5: Header = Header {
    nw_dst: 0x0a000005,
    ..IPV4
};

/// The rule for packets of this type to 10.0.0.5, which sends to port 2.
fn to_5(alloc: Global, dl_type: u16) -> Result<Rule, OutOfMemory> {
    // Neither the type nor the address is wildcarded.
    sending(
        alloc,
        Match::normal(0x003fffff & !0x10 & !(63 << 14), Header { dl_type, ..TO_5 }),
        100,
        &[2],
    )
}

/// The rule for all packets, of a lower priority.
fn to_all(alloc: Global, ports: &[u16]) -> Result<Rule, OutOfMemory> {
    sending(alloc, Match::normal(0x003fffff, TO_5), 1, ports)
}

/// The job of this view, table and target.
fn job(alloc: Global, table: Table, target: Target) -> Result<Job, OutOfMemory>
    requires { IsJob table target }
{
    Ok(Job {
        number: 1,
        session: 1,
        slot: 0,
        edit: 1,
        version: 1,
        view: two_neighbours(alloc)?,
        table,
        target,
    })
}

/// The rule for packets of this type to 10.0.0.5 was put over one that sends all packets to these ports.
fn put_over(alloc: Global, dl_type: u16, ports: &[u16]) -> Result<Job, OutOfMemory> {
    let rule = to_5(alloc, dl_type)?;
    let mut table = Table::new(alloc);
    let _ = table.put(to_all(alloc, ports)?)?;
    let _ = table.put(rule.copied(alloc)?)?;
    job(alloc, table, Target::Put { rule, old: None })
}

/// The rule for 10.0.0.5 was cut, and a rule that sends all packets to these ports is left.
fn cut_over(alloc: Global, ports: &[u16]) -> Result<Job, OutOfMemory> {
    let rule = to_5(alloc, 0x0800)?;
    let mut table = Table::new(alloc);
    let _ = table.put(to_all(alloc, ports)?)?;
    let _ = table.cut(&rule.matching, rule.priority)?;
    job(alloc, table, Target::Cut { rule })
}

/// The rule for 10.0.0.5 was cut, and no rule is left.
fn cut_alone(alloc: Global) -> Result<Job, OutOfMemory> {
    job(
        alloc,
        Table::new(alloc),
        Target::Cut {
            rule: to_5(alloc, 0x0800)?,
        },
    )
}

/// What a case shows by a model of its formula. The header's own values have to be a model that bears it.
fn shown(alloc: Global, job: &Job, case: &Case) -> Result<Option<(Header, Emission)>, OutOfMemory>
    requires { IsCaseOf job.now case.now }
{
    let f = encode(alloc, job, case)?;
    match solve_plain(alloc, &f)? {
        Outcome::Model(values) => {
            let (h, e) = decode_model(job, case, values.items());
            let again = encode_header(alloc, job, case, &h)?;
            if holds(&f, again.items()) && same_header(&borne(again.items()), &h) {
                return Ok(Some((h, e)));
            }
            Ok(None)
        }
        Outcome::Refuted(_) => Ok(None),
    }
}

/// How many cases a job has, and how many of them show something that separates.
fn count(alloc: Global, job: &Job) -> Result<(usize, usize), OutOfMemory> {
    let found = cases(alloc, job)?;
    let mut count: usize = 0;
    for case in found.items() {
        if let Some((h, e)) = shown(alloc, job, case)?
            && separates(&job.view, &job.table, &job.target, &h, &e)
        {
            count = count.saturating_add(1);
        }
    }
    Ok((found.items().len(), count))
}

#[test]
fn cases_are_counted_as_by_hand(rt: HostRuntime) -> Result<(), Fail> {
    let alloc = rt.alloc();
    // From port 2 the rule emits nothing, so each class has port 1 alone; and frames of other types don't match it.
    assert!(rt; count(alloc, &put_over(alloc, 0x0800, &[1])?)? == (6, 4));
    // Of the classes only that of ARP has such frames.
    assert!(rt; count(alloc, &put_over(alloc, 0x0806, &[1])?)? == (6, 1));
    // The rule below sends to port 2 too.
    assert!(rt; count(alloc, &put_over(alloc, 0x0800, &[2])?)? == (6, 0));
    // From port 1 the rule that is left sends to port 2 and to the controller, from port 2 to the controller alone, and
    // no packet is a miss. What the cut rule did not do is what goes to the controller.
    assert!(rt; count(alloc, &cut_over(alloc, &[2, 0xfffd])?)? == (30, 8));
    // Each packet is a miss, and shows that the cut rule is gone where that matched it.
    assert!(rt; count(alloc, &cut_alone(alloc)?)? == (12, 8));
    Ok(())
}

#[test]
fn cases_stand_in_order(rt: HostRuntime) -> Result<(), Fail> {
    let alloc = rt.alloc();
    let found = cases(alloc, &cut_over(alloc, &[2, 0xfffd])?)?;
    let first = [
        (1, Some(0), 0),
        (1, Some(0), 1),
        (1, None, 0),
        (2, Some(0), 0),
        (2, None, 0),
    ];
    for (i, case) in found.items().iter().enumerate() {
        assert!(rt; i < 30 && case.class == CLASSES[i / 5]);
        let (in_port, winner, emission) = first[i % 5];
        assert!(rt; case.in_port == in_port && case.winner == winner && case.emission == emission);
    }
    Ok(())
}
