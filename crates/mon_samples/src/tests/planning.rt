//! Tables that are planned and checked.

use crate::{PACKET, ipv4, narrow, two_neighbours, wide};
use mon_header::{Header, OutOfMemory};
use mon_list::Items;
use mon_outcome::Emission;
use mon_plan::{Certificate, Certificates, Checked, Summary, check_table, job_at, plan_table};
use mon_shows::Target;
use mon_table::Table;
use std::alloc::Global;
use std::test::Fail;
use std::thread::Threads;

/// That rule over one for all IPv4 at priority 50, with the same output.
fn nested(alloc: Global) -> Result<Table, OutOfMemory> {
    let mut table = Table::new(alloc);
    let _ = table.put(wide(alloc)?)?;
    let _ = table.put(narrow(alloc)?)?;
    Ok(table)
}

/// From 10.0.0.0/8 and to 10.0.0.0/8, both at priority 100.
fn crossed(alloc: Global) -> Result<Table, OutOfMemory> {
    let mut table = Table::new(alloc);
    let _ = table.put(ipv4(alloc, 0x003818ef, 0x0a000000, 0, 100)?)?;
    let _ = table.put(ipv4(alloc, 0x003620ef, 0, 0x0a000000, 100)?)?;
    Ok(table)
}

/// Whether the job of the place watches a rule of this priority, among so many rules.
fn watches(
    alloc: Global,
    table: &Table,
    place: u32,
    priority: u16,
    among: u32,
) -> Result<bool, OutOfMemory> {
    if place >= table.len() {
        return Ok(false);
    }
    let job = job_at(alloc, &two_neighbours(alloc)?, table, place)?;
    match &job.target {
        Target::Watch { rule } => Ok(rule.priority == priority && job.table.len() == among),
        _ => Ok(false),
    }
}

/// So many certificates of ties.
fn overlaps(alloc: Global, count: u32) -> Result<Certificates, OutOfMemory> {
    let mut certificates = Items::new(alloc);
    for _ in 0..count {
        certificates.push(Certificate::Overlap)?;
    }
    Ok(certificates)
}

/// One probe that leaves by port 2 as it came.
fn probe(alloc: Global, header: Header) -> Result<Certificates, OutOfMemory> {
    let mut certificates = Items::new(alloc);
    certificates.push(Certificate::Probe(header, Emission::Port(2, header)))?;
    Ok(certificates)
}

/// Whether this is said of certificates of the table.
fn is_said(
    alloc: Global,
    table: &Table,
    certificates: &Certificates,
    said: Checked,
) -> Result<bool, OutOfMemory> {
    Ok(check_table(alloc, &two_neighbours(alloc)?, table, certificates)? == said)
}

#[test]
fn probes_are_refused_by_one_bit(rt: HostRuntime) -> Result<(), Fail> {
    let alloc = rt.alloc();
    let mut table = Table::new(alloc);
    let _ = table.put(narrow(alloc)?)?;
    assert!(rt; is_said(alloc, &table, &probe(alloc, PACKET)?, Checked::Accepted(1))?);
    let elsewhere = Header {
        nw_dst: 0x0a000101,
        ..PACKET
    };
    assert!(rt;
        is_said(
            alloc,
            &table,
            &probe(alloc, elsewhere)?,
            Checked::Refused(0)
        )?
    );
    Ok(())
}

#[test]
fn jobs_watch_the_rules(rt: HostRuntime) -> Result<(), Fail> {
    let alloc = rt.alloc();
    let mut table = nested(alloc)?;
    let _ = table.put(ipv4(alloc, 0x003220ef, 0, 0x0a000100, 70)?)?;
    assert!(rt; watches(alloc, &table, 1, 70, 2)?);
    assert!(rt; watches(alloc, &table, 2, 50, 3)?);
    Ok(())
}

#[test]
fn there_are_as_many_certificates_as_rules(rt: HostRuntime) -> Result<(), Fail> {
    let alloc = rt.alloc();
    let crossed = crossed(alloc)?;
    assert!(rt; is_said(alloc, &crossed, &overlaps(alloc, 1)?, Checked::Refused(1))?);
    assert!(rt; is_said(alloc, &crossed, &overlaps(alloc, 2)?, Checked::Accepted(2))?);
    assert!(rt; is_said(alloc, &crossed, &overlaps(alloc, 3)?, Checked::Refused(2))?);
    Ok(())
}

/// Whether the plan of the table by so many workers is accepted, and has this summary.
fn plans<R: Threads + Sync>(
    rt: &R,
    alloc: Global,
    table: &Table,
    workers: u32,
    summary: Summary,
) -> Result<bool, OutOfMemory> {
    let planned = plan_table(rt, alloc, &two_neighbours(alloc)?, table, workers)?;
    let said = Checked::Accepted(summary.rules);
    Ok(Summary::of(&planned) == summary && is_said(alloc, table, &planned, said)?)
}

#[test]
fn plans_are_accepted(rt: HostRuntime) -> Result<(), Fail> {
    let alloc = rt.alloc();
    let summary = Summary {
        rules: 2,
        probes: 1,
        indistinguishable: 1,
        overlap: 0,
    };
    assert!(rt; plans(&rt, alloc, &nested(alloc)?, 1, summary)?);
    let summary = Summary {
        rules: 2,
        probes: 0,
        indistinguishable: 0,
        overlap: 2,
    };
    assert!(rt; plans(&rt, alloc, &crossed(alloc)?, 8, summary)?);
    Ok(())
}
